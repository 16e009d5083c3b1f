// Reads values from standard input as a record has them and shows of each: how it is printed, the bytes of its cell, how it compares with the
// value before it, and whether its cell, read back, is it again. What proofs say of every value is seen here at the edges.
#![tactic(auto)]

ghost use Rattle.values.specs.Meaning.{ProperCell};

use forms::{print, read};
use std::cmp::Ordering;
use std::io;
use std::io::{Read, Write};
use values::value::{Cell, Value};
use values::{cell, value};

// A space and a word.
fn say<W: Write>(out: &mut W, word: &str) -> io::Result<()> {
    write!(out, " {word}")
}

fn show_order<W: Write>(out: &mut W, o: Ordering) -> io::Result<()> {
    match o {
        Ordering::Less => say(out, "after"),
        Ordering::Equal => say(out, "equal"),
        Ordering::Greater => say(out, "before"),
    }
}

// The value as a row line prints it.
fn show_value<W: Write>(out: &mut W, c: Cell) -> io::Result<()>
    requires { ProperCell c }
{
    let mut line = [0u8; 50];
    let n = print::print_value(&mut line, c);
    out.write_all(&line[..n])
}

// Two digits for each byte.
fn show_bytes<W: Write>(out: &mut W, s: &[u8]) -> io::Result<()> {
    say(out, "")?;
    for b in s {
        write!(out, "{b:02x}")?;
    }
    Ok(())
}

// The bytes of its cell, and whether they are read back as the value.
fn show_cell<W: Write>(out: &mut W, c: Cell) -> io::Result<()>
    requires { ProperCell c }
{
    let mut own = [0u8; 26];
    cell::write_cell(&mut own, c);
    show_bytes(out, &own)?;
    let back = cell::read_cell(&own);
    show_order(out, value::compare(c.value, back.value))?;
    if cell::is_cell(&own) {
        say(out, "cell")?;
    }
    if value::is_undefined(c.value) {
        say(out, "undefined")?;
    }
    Ok(())
}

// The values that stand in bytes one behind another.
fn show_all<W: Write>(out: &mut W, s: &[u8]) -> io::Result<()> {
    let mut before = Cell { value: Value::Null };
    let mut at = 0;
    while at < s.len() {
        match read::value_at(s, at) {
            Ok((cell, next)) => {
                show_value(out, cell)?;
                show_order(out, value::compare(before.value, cell.value))?;
                show_cell(out, cell)?;
                writeln!(out)?;
                before = cell;
                at = next;
            }
            Err(broken) => return writeln!(out, "broken at {}", broken.at),
        }
    }
    Ok(())
}

fn main(rt: HostRuntime) {
    let mut buffer = [0u8; 4096];
    let n = rt.stdin().read(&mut buffer).unwrap_or(0);
    let _ = show_all(&mut rt.stdout(), &buffer[..n]);
}
