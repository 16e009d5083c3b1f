// What a request is answered.
ghost use Rattle.std.specs.Prelude.{◌≡◌};
ghost use Rattle.rules.specs.Refusal.{number_of, refusal_of};
ghost use Rattle.rules.specs.Request.{told, no, no_carrying, carried_of, with_gone};

use values::value::{Text, Value};

// Why a request is refused, each with document 01's number.
#[derive(Clone, Copy, PartialEq, Eq, Debug)]
pub enum Refusal {
    RecordBroken = 1,
    UnknownTable = 2,
    TableExists = 3,
    EmptyTableName = 4,
    NoColumns = 5,
    KeyColumnOutOfRange = 6,
    EmptyColumnName = 7,
    KeyNullable = 8,
    KeyNotUnique = 9,
    KeyIndexed = 10,
    NullableWithoutDefault = 11,
    NullDefault = 12,
    DefaultKind = 13,
    UniqueNotIndexed = 14,
    ReferenceNotIndexed = 15,
    UnknownTarget = 16,
    TargetKind = 17,
    ColumnTwice = 18,
    TablesFull = 19,
    TableReferenced = 20,
    TooManyValues = 21,
    MapCount = 22,
    NoDefault = 23,
    MapColumn = 24,
    RowSize = 25,
    KeyUndefined = 26,
    KeyExists = 27,
    WrongKind = 28,
    NullNotAllowed = 29,
    TargetMissing = 30,
    ValueExists = 31,
    RowReferenced = 32,
    RowsFull = 33,
    RowAbsent = 34,
    KeysNotRising = 35,
    NotIndexed = 37,
    StoreUnsound = 38,
    JournalFull = 43,
    InsideBatch = 44,
    BatchOutOfTurn = 45,
}

// What 20 and 32 carry: the referencing table, its first referencing column, or its key column and the key of a row there. Any other refusal
// carries a table without a name, column 0 and NULL.
#[derive(Clone, Copy)]
pub struct Carried {
    pub table: Text,
    pub column: usize,
    pub key: Value,
}

// `no CODE AT GONE`: `kind` says why.
#[derive(Clone, Copy)]
pub struct Refused {
    pub kind: Refusal,
    pub at: usize,
    pub gone: bool,
    pub carried: Carried,
}

// `ok N`, or why not.
pub type Answer = Result<usize, Refused>;

// Document 01's number of a refusal.
pub fn number(k: Refusal) -> u64
    ensures { result ≡ number_of (refusal_of k) }
{
    k as u64
}

impl Refused {
    // `no CODE AT 0`, carrying nothing.
    #[tactic(auto, unfolding(values::specs::Meaning::text_bytes, values::specs::Meaning::meaning))]
    pub fn new(kind: Refusal, at: usize) -> Refused
        ensures { told result ≡ no (refusal_of kind) at }
    {
        let nameless = Text {
            a: 0,
            b: 0,
            c: 0,
            len: 0,
        };
        let nothing = Carried {
            table: nameless,
            column: 0,
            key: Value::Null,
        };
        Refused::carrying(kind, at, nothing)
    }

    // A refusal that carries a table, a column and a key.
    pub fn carrying(kind: Refusal, at: usize, carried: Carried) -> Refused
        ensures { told result ≡ no_carrying (refusal_of kind) at (carried_of carried) }
    {
        Refused {
            kind,
            at,
            gone: false,
            carried,
        }
    }

    // The same refusal with GONE.
    pub fn with_gone(self, gone: bool) -> Refused
        ensures { told result ≡ with_gone gone (told self) }
    {
        Refused { gone, ..self }
    }
}
