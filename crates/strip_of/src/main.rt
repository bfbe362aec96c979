// The program strip_of: a filing typed in decimal from standard input; its strip to standard output, or one line to standard error.
#![tactic(auto)]

fn main(rt: HostRuntime) {
    if stream::explained(
        &rt,
        b"strip_of: reads the number of placements and a table, as decimal numbers, from standard input, and writes their strip. It takes no arguments.\n",
    ) {
        return;
    }
    let mut text = [0u8; typed::INPUT];
    let Ok(length) = stream::read_input(&rt, &mut text) else {
        return;
    };
    let mut out = [0u8; typed::OUTPUT];
    match typed::strip_of(&text[..length], &mut out) {
        Ok(length) => stream::write_output(&rt, &out[..length]),
        Err(message) => stream::write_error(&rt, &out[..message.length]),
    }
}
