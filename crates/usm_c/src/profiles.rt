// The delivery profile for C, of a whole film and of one that is read piece by piece. Request 14.
ghost use Rattle.std.specs.Prelude.{◌≡◌, not, eqb, Ok};
ghost use Rattle.profile.specs.Profiles.{profile_of, profile_reply};
ghost use Rattle.profile.specs.Steps.{begun, stepped, ended};

use profile::ProfileReply;
use profile::steps::Profiling;
use usm::stepping::AudioBytes;

// Whether a film is plain: the first rule that it breaks, and where.
#[unsafe(no_mangle)]
pub extern "C" fn usm_profile(container: &[u8]) -> ProfileReply
    ensures { result ≡ profile_reply (profile_of container.now) }
{
    usm::profiles::usm_profile(container)
}

// What is known of a film before its first chunk.
#[unsafe(no_mangle)]
pub extern "C" fn usm_profile_begin(audio: AudioBytes) -> Profiling
    ensures { result ≡ begun (not (eqb audio.present 0)) }
{
    usm::profiles::usm_profile_begin(audio)
}

// What is known after one chunk more, by a window: the bytes that stand at its place. 45 are enough.
#[unsafe(no_mangle)]
pub extern "C" fn usm_profile_step(window: &[u8], place: usize, known: Profiling) -> Profiling
    ensures { result ≡ stepped window.now place known }
{
    usm::profiles::usm_profile_step(window, place, known)
}

// Whether a film of `total` bytes is plain, by what is known after its last chunk.
#[unsafe(no_mangle)]
pub extern "C" fn usm_profile_end(total: usize, known: Profiling) -> ProfileReply
    ensures { result ≡ profile_reply (Ok (ended total known)) }
{
    usm::profiles::usm_profile_end(total, known)
}
