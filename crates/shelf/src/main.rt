// Prints the report of the text on standard input, or its refusal (document 01, "Text").
// With an argument, as --help, it prints how it is used.
#![tactic(auto)]

const USAGE: &[u8] =
    b"usage: shelf < TEXT\n  prints the report of the text of a record, or its first fault\n";

fn main(rt: HostRuntime) {
    if stdio::arg_count(&rt) < 2 {
        return stdio::text_input::show_input(&rt);
    }
    // The status stays 0 where writing fails: standard error was told.
    let _ = stdio::print(&rt, USAGE);
}
