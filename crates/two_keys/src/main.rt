// Tells an operator what two keys have in common, and support whether a sound clip tells them apart:
// two_keys FIRST SECOND [LENGTH].
#![tactic(auto)]

// Prints the answer about the arguments, or how the program is called.
fn main(rt: HostRuntime) {
    let mut first = [0u8; arguments::ROOM];
    let mut second = [0u8; arguments::ROOM];
    let mut third = [0u8; arguments::ROOM];
    match arguments::count(&rt) {
        3 => two_keys_print::print_answer(
            arguments::read(&rt, 1, &mut first),
            arguments::read(&rt, 2, &mut second),
        ),
        4 => two_keys_print::print_answer_on_clip(
            arguments::read(&rt, 1, &mut first),
            arguments::read(&rt, 2, &mut second),
            arguments::read(&rt, 3, &mut third),
        ),
        _ => two_keys_print::print_usage(),
    }
}
