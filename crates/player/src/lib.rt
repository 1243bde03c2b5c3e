// Five functions for a C player: the key table, and video and audio payloads unmasked and masked in place.
// Rules K. Declared for C in include/usm.h and exported by the crate `player_c`.
#![tactic(auto)]

ghost use Rattle.std.specs.Prelude.{◌≡◌, length};
ghost use Rattle.key.specs.KeyTable.{keys_of};
ghost use Rattle.mask.specs.Audio.{masked_audio};
ghost use Rattle.mask.specs.Video.{unmasked_video, masked_video};
ghost use Rattle.player.specs.KeyTableOut.{laid, given};

// Sets a row of 32 bytes. A loop of its own: `copy_from_slice` is called out of line, and `usm_key_table` takes 1.4 times as long
// and 112 bytes of stack more (measured).
fn put(row: &mut [u8], bytes: [u8; 32])
    requires { length row.old ≡ 32 }
    ensures { row.new ≡ bytes }
{
    for (lane, byte) in row.iter_mut().enumerate() {
        *byte = bytes[lane];
    }
}

// T, V and A of a key in the first 96 bytes of a buffer, and 96; a shorter buffer stays, and 0.
#[unsafe(no_mangle)]
pub extern "C" fn usm_key_table(key: u64, table: &mut [u8]) -> usize
    ensures { (result ≡ given table.old) × (table.new ≡ laid (keys_of key) table.old) }
{
    if table.len() < 96 {
        return 0;
    }
    let keys = key::key_table(key);
    put(&mut table[0..32], keys.t);
    put(&mut table[32..64], keys.v);
    put(&mut table[64..96], keys.a);
    96
}

// Unmasks a video payload in place.
#[unsafe(no_mangle)]
pub extern "C" fn usm_unmask_video(key: u64, payload: &mut [u8])
    ensures { payload.new ≡ unmasked_video (keys_of key) payload.old }
{
    mask::unmask_video(payload, key::key_table(key));
}

// Masks a video payload in place.
#[unsafe(no_mangle)]
pub extern "C" fn usm_mask_video(key: u64, payload: &mut [u8])
    ensures { payload.new ≡ masked_video (keys_of key) payload.old }
{
    mask::mask_video(payload, key::key_table(key));
}

// Unmasks an audio payload in place.
#[unsafe(no_mangle)]
pub extern "C" fn usm_unmask_audio(key: u64, payload: &mut [u8])
    ensures { payload.new ≡ masked_audio (keys_of key) payload.old }
{
    mask::mask_audio(payload, key::key_table(key));
}

// Masks an audio payload in place: the same act as unmasking it.
#[unsafe(no_mangle)]
pub extern "C" fn usm_mask_audio(key: u64, payload: &mut [u8])
    ensures { payload.new ≡ masked_audio (keys_of key) payload.old }
{
    mask::mask_audio(payload, key::key_table(key));
}
