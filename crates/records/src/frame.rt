// Framing: given the bytes at hand, where the next record ends, or how many bytes to skip, or that more are needed, or that all stops.
ghost use Rattle.std.specs.Prelude.{◌≡◌};
ghost use Rattle.records.specs.Frame.{framed, short};

#[derive(Clone, Copy)]
pub enum Framed {
    // a whole record of so many bytes, its two length bytes included
    Whole(usize),
    // a record of bad length: so many bytes to pass over
    Skip(usize),
    More,
    // cut off by the end of the input
    Cut,
    // nothing is left
    Done,
}

// What a record's two length bytes may say at the most.
const RECORD_MOST: usize = 4096;

// Where bytes are missing: cut off at the end of the input, else more are needed.
fn short(ended: bool) -> Framed
    ensures { result ≡ short ended }
{
    if ended { Framed::Cut } else { Framed::More }
}

// What comes next; `ended` says that the input has no more bytes than these.
#[tactic(auto, using(crate::proofs::Framing::empty, crate::proofs::Framing::missing, crate::proofs::Framing::bad_length, crate::proofs::Framing::cut, crate::proofs::Framing::whole))]
pub fn next_record(s: &[u8], ended: bool) -> Framed
    ensures { result ≡ framed s.now ended }
{
    match s {
        [high, low, rest @ ..] => {
            let long = usize::from(*high) * 256 + usize::from(*low);
            if long < 2 || RECORD_MOST < long {
                Framed::Skip(2 + long)
            } else if rest.len() < long {
                short(ended)
            } else {
                Framed::Whole(2 + long)
            }
        }
        [] if ended => Framed::Done,
        _ => short(ended),
    }
}
