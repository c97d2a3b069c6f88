// The bench: a script on standard input, one command to a line, run over the calls on lent buffers.

#![tactic(auto)]

mod commands;
mod line_buffer;
mod lines;
pub mod say;
mod show;

ghost use Rattle.std.specs.Prelude.{◌≡◌, length};

use std::io;

fn heap_bytes() -> [u8; 1048576]
    ensures { 1048576 ≡ length result }
{
    [0u8; 1048576]
}

fn table_words() -> [u64; 131072]
    ensures { 131072 ≡ length result }
{
    [0u64; 131072]
}

fn line_bytes() -> [u8; 131200]
    ensures { 131200 ≡ length result }
{
    [0u8; 131200]
}

// As many as the longest line's hex pairs can give.
fn decoded_bytes() -> [u8; 65600]
    ensures { 65600 ≡ length result }
{
    [0u8; 65600]
}

// The script on standard input, to its end; then the first failure of a write, if there was one.
pub fn run(rt: &(impl Print + Input)) -> io::Result<()> {
    let mut heap = heap_bytes();
    let mut table = table_words();
    let mut line = line_bytes();
    let mut decoded = decoded_bytes();
    let mut input = standard_input::large_buffer();
    let mut written = Ok(());
    lines::run_all(
        rt,
        &mut written,
        &mut input,
        &mut line,
        &mut decoded,
        &mut heap,
        &mut table,
    );
    written
}
