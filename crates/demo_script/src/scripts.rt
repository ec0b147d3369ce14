//! A line by its number, and the whole script.
ghost use Rattle.std.specs.Prelude.{◌≡◌, ◌↔◌, ◌⊎◌, ◌<◌, ◌≤◌, ◌++◌, None, IfOk, OnOk};
ghost use Rattle.std.specs.String.{string_bytes};
ghost use Rattle.demo_script.specs.Demo.{demo_lines, demo_text, line_at};
ghost use Rattle.demo_script.specs.Lines.{line_with_end, text_of, IsInRound};

use crate::lines::{LINES, Line, line_at};
use crate::texts::put_line;
use std::alloc::Global;
use ts_schema::{NoMemory, Seq};

/// The line with a number, counted from 1, of the script of a demonstration, without a line feed. Returns `None`
/// exactly if the number is 0 or above 285. The program uses the whole script, by `demo_script`.
pub fn demo_line(alloc: Global, demo: u32, number: u32) -> Result<Option<Seq<u8>>, NoMemory>
    ensures line { IfOk result (λ line. line ≡ line_at (demo_lines demo) number) }
    ensures none { IfOk result (λ line. (line ≡ None) ↔ ((number ≡ 0) ⊎ (285 < number))) }
{
    match line_at(number) {
        None => Ok(None),
        Some(line) => Ok(Some(text_of(alloc, demo, line)?)),
    }
}

/// The text of a line, without its line feed.
fn text_of(alloc: Global, demo: u32, line: Line) -> Result<Seq<u8>, NoMemory>
    requires { IsInRound line }
    ensures { IfOk result (λ text. text ≡ text_of demo line) }
{
    let mut text = String::new(alloc);
    put_line(demo, line, &mut text)?;
    Ok(Seq::of(text.into_bytes()))
}

/// The script of a demonstration: each line, and a line feed after each.
pub fn demo_script(alloc: Global, demo: u32) -> Result<Vec<u8>, NoMemory>
    ensures text { IfOk result (λ text. text.items ≡ demo_text demo) }
{
    let mut text = String::new(alloc);
    for before in 0..LINES {
        put_line_at(demo, before + 1, &mut text)?;
    }
    Ok(text.into_bytes())
}

/// Appends the line with a number, if there is one, and a line feed.
fn put_line_at(demo: u32, number: u32, out: &mut String) -> Result<(), NoMemory>
    ensures { OnOk result (string_bytes out.new ≡ string_bytes out.old ++ line_with_end (line_at (demo_lines demo) number)) }
{
    match line_at(number) {
        None => Ok(()),
        Some(line) => {
            put_line(demo, line, out)?;
            out.push('\n')?;
            Ok(())
        }
    }
}
