// libplayer.a: the functions of `player` as another program links them. Each calls the function of its name. Rules K.
// Declared for C in include/usm.h; `rt lib` in this folder builds the library.
#![tactic(auto)]

ghost use Rattle.std.specs.Prelude.{◌≡◌};
ghost use Rattle.key.specs.KeyTable.{keys_of};
ghost use Rattle.mask.specs.Audio.{masked_audio};
ghost use Rattle.mask.specs.Video.{unmasked_video, masked_video};
ghost use Rattle.player.specs.KeyTableOut.{laid, given};

// T, V and A of a key in the first 96 bytes of a buffer, and 96; a shorter buffer stays, and 0.
#[unsafe(no_mangle)]
pub extern "C" fn usm_key_table(key: u64, table: &mut [u8]) -> usize
    ensures { (result ≡ given table.old) × (table.new ≡ laid (keys_of key) table.old) }
{
    player::usm_key_table(key, table)
}

// Unmasks a video payload in place.
#[unsafe(no_mangle)]
pub extern "C" fn usm_unmask_video(key: u64, payload: &mut [u8])
    ensures { payload.new ≡ unmasked_video (keys_of key) payload.old }
{
    player::usm_unmask_video(key, payload);
}

// Masks a video payload in place.
#[unsafe(no_mangle)]
pub extern "C" fn usm_mask_video(key: u64, payload: &mut [u8])
    ensures { payload.new ≡ masked_video (keys_of key) payload.old }
{
    player::usm_mask_video(key, payload);
}

// Unmasks an audio payload in place.
#[unsafe(no_mangle)]
pub extern "C" fn usm_unmask_audio(key: u64, payload: &mut [u8])
    ensures { payload.new ≡ masked_audio (keys_of key) payload.old }
{
    player::usm_unmask_audio(key, payload);
}

// Masks an audio payload in place: the same act as unmasking it.
#[unsafe(no_mangle)]
pub extern "C" fn usm_mask_audio(key: u64, payload: &mut [u8])
    ensures { payload.new ≡ masked_audio (keys_of key) payload.old }
{
    player::usm_mask_audio(key, payload);
}
