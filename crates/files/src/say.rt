// What a program says on standard error. Where that can't be written, nobody is told.
ghost use Rattle.std.specs.Prelude.{◌≡◌, Some, None, MatchResult};

use std::fmt::Display;

// A line on standard error about a file.
pub fn complain<D: Display + Drop>(rt: &impl Eprint, name: &str, what: D) {
    let _said = eprintln!(rt; "{name}: {what}");
}

// What a call about a file gave; or none, once the cause is said.
pub fn or_complain<R: Eprint, T: Drop, E: Display + Drop>(
    rt: &R,
    name: &str,
    given: Result<T, E>,
) -> Option<T>
    ensures { MatchResult given (λ x. result ≡ Some x) (λ _. result ≡ None) }
{
    match given {
        Ok(x) => Some(x),
        Err(e) => {
            complain(rt, name, e);
            None
        }
    }
}

// The last line on standard error of a program that did not do all it was asked: a script looks for `PROGRAM: not done:`.
pub fn tell_undone(rt: &impl Eprint, program: &str, name: &str, what: &str) {
    let _said = eprintln!(rt; "{program}: not done: {name}{what}");
}
