// What is wrong with a schema against the catalog, part by part (schema.rs: `Table::validate`, 7 to 18).
ghost use Rattle.std.specs.Prelude.{◌≡◌, ◌<◌, [], length};
ghost use Rattle.values.specs.Meaning.{text_bytes, Packed};
ghost use Rattle.rules.specs.Refusal.{refusal_of};
ghost use Rattle.rules.specs.Request.{told, no};
ghost use Rattle.rules.specs.Layout.{read_table, parse};
ghost use Rattle.rules.specs.Schema.{target_kind, column_fault, columns_fault, repeat_fault};
ghost use Rattle.laid.specs.Column.{column_of, ProperColumn, column_at, name_before};
ghost use Rattle.laid.specs.Catalog.{TableBytes, Catalog, found_at};
ghost use Rattle.checks.specs.Faults.{broken_rule, fault_of, key_fault, default_fault, reference_fault};

use laid::catalog::Column;
use laid::{catalog, layout};
use rules::answer::{Refusal, Refused};
use rules::profile::Profile;
use values::value::Text;
use values::{cell, value};

// The first rule that is broken, and at which column, row or pair.
#[derive(Clone, Copy, PartialEq, Eq, Debug)]
pub struct Fault {
    pub kind: Refusal,
    pub at: usize,
}

impl From<Fault> for Refused {
    ghost from_gives = { λ f r. told r ≡ no (refusal_of f.kind) f.at };

    fn from(f: Fault) -> Refused {
        Refused::new(f.kind, f.at)
    }
}

// The kind of the key that a reference of a schema is to, where its target is stored or is the schema itself.
fn target_kind(s: &[u8], p: Profile, places: usize, rec: &[u8], name: Text) -> Option<u8>
    requires { Catalog p places s.now × TableBytes p rec.now × Packed name }
    ensures { found_at result ≡ target_kind (parse p places s.now).tables (read_table p rec.now) (text_bytes name) }
{
    if value::compare_texts(name, cell::read_name(rec)).is_eq() {
        return Some(catalog::key_kind(rec, p));
    }
    let i = catalog::get_table(s, p, places, name)?;
    Some(catalog::key_kind(layout::table_record(s, p, places, i), p))
}

// 7 to 10: the name, and what a key column may be.
#[tactic(auto, using(crate::proofs::Faulting::name_is_nil), unfolding(crate::specs::Faults::key_fault, rules::specs::Schema::first))]
fn key_fault(c: Column, keyed: bool) -> Result<(), Refusal>
    requires { ProperColumn c }
    ensures { broken_rule result ≡ key_fault keyed (column_of c) }
{
    if c.name.len == 0 {
        return Err(Refusal::EmptyColumnName);
    }
    if keyed {
        if c.nullable {
            return Err(Refusal::KeyNullable);
        }
        if !c.unique {
            return Err(Refusal::KeyNotUnique);
        }
        if c.index {
            return Err(Refusal::KeyIndexed);
        }
    }
    Ok(())
}

// 11 to 13: the default.
#[tactic(auto, unfolding(crate::specs::Faults::default_fault, rules::specs::Schema::first))]
fn default_fault(c: Column) -> Result<(), Refusal>
    ensures { broken_rule result ≡ default_fault (column_of c) }
{
    let Some(default) = c.default else {
        return if c.nullable {
            Err(Refusal::NullableWithoutDefault)
        } else {
            Ok(())
        };
    };
    if value::is_null(default.value) {
        if !c.nullable {
            return Err(Refusal::NullDefault);
        }
    } else if value::datatype(default.value) != c.kind {
        return Err(Refusal::DefaultKind);
    }
    Ok(())
}

// 14 to 17: what asks for an index, and the reference.
#[tactic(auto, unfolding(crate::specs::Faults::reference_fault, rules::specs::Schema::first))]
fn reference_fault(
    s: &[u8],
    p: Profile,
    places: usize,
    rec: &[u8],
    c: Column,
    keyed: bool,
) -> Result<(), Refusal>
    requires { Catalog p places s.now × TableBytes p rec.now × ProperColumn c }
    ensures { broken_rule result ≡ reference_fault (parse p places s.now).tables (read_table p rec.now) keyed (column_of c) }
{
    let bare = !c.index && !keyed;
    if c.unique && bare {
        return Err(Refusal::UniqueNotIndexed);
    }
    let Some(target) = c.reference else {
        return Ok(());
    };
    if bare {
        return Err(Refusal::ReferenceNotIndexed);
    }
    let kind = target_kind(s, p, places, rec, target).ok_or(Refusal::UnknownTarget)?;
    if kind != c.kind {
        return Err(Refusal::TargetKind);
    }
    Ok(())
}

// 7 to 17 of column i.
fn column_fault(s: &[u8], p: Profile, places: usize, rec: &[u8], i: usize) -> Result<(), Refusal>
    requires { Catalog p places s.now × TableBytes p rec.now × (i < length (read_table p rec.now).columns) }
    ensures { broken_rule result ≡ column_fault (parse p places s.now).tables (read_table p rec.now) i (column_at p rec.now i) }
{
    let c = catalog::read_column(rec, p, i);
    let keyed = i == catalog::key_column(rec);
    key_fault(c, keyed)?;
    default_fault(c)?;
    reference_fault(s, p, places, rec, c, keyed)
}

// Whether a column before i has the name of column i.
fn repeats(rec: &[u8], p: Profile, i: usize) -> bool
    requires { TableBytes p rec.now × (i < length (read_table p rec.now).columns) }
    ensures { result ≡ name_before p rec.now i }
{
    let name = catalog::read_column(rec, p, i).name;
    for j in 0..i {
        if value::compare_texts(name, catalog::read_column(rec, p, j).name).is_eq() {
            return true;
        }
    }
    false
}

// 18: the first column that repeats an earlier name.
pub fn repeat_fault(rec: &[u8], p: Profile) -> Result<(), Fault>
    requires { TableBytes p rec.now }
    ensures { fault_of result ≡ repeat_fault [] 0 (read_table p rec.now).columns }
{
    for i in 0..catalog::column_count(rec) {
        if repeats(rec, p, i) {
            return Err(Fault {
                kind: Refusal::ColumnTwice,
                at: i,
            });
        }
    }
    Ok(())
}

// 7 to 17 of each column in turn.
pub fn columns_fault(s: &[u8], p: Profile, places: usize, rec: &[u8]) -> Result<(), Fault>
    requires { Catalog p places s.now × TableBytes p rec.now }
    ensures { fault_of result ≡ columns_fault (parse p places s.now).tables (read_table p rec.now) 0 (read_table p rec.now).columns }
{
    for i in 0..catalog::column_count(rec) {
        column_fault(s, p, places, rec, i).map_err(|kind| Fault { kind, at: i })?;
    }
    Ok(())
}
