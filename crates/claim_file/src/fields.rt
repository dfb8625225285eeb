//! The members of a claim's JSON object, each of the kind that it has to have.

ghost use Rattle.serde_json.specs.View.{view};
ghost use Rattle.claim_file.specs.Fault.{Answers};
ghost use Rattle.claim_file.specs.Fields.{fields_data, fields_of, scalars_data, scalars_of};
ghost use Rattle.json_text.specs.Step.{Gives};

use crate::elements::{groups_at, texts_at};
use crate::fault::ClaimFault;
use json_text::{members_among, text_at, unsigned_at};
use serde_json::Value;
use std::alloc::Global;

/// The members of a claim.
#[derive(Drop)]
pub(crate) struct Fields<'v> {
    pub(crate) client: &'v str,
    pub(crate) servers: Vec<&'v str>,
    pub(crate) false_max: u64,
    pub(crate) begin: &'v str,
    pub(crate) end: &'v str,
    pub(crate) bound_ns: u64,
    pub(crate) drift_ppb: u64,
    pub(crate) reading_ns: u64,
    pub(crate) groups: Option<Vec<Vec<u64>>>,
}

const NAMES: [&str; 9] = [
    "client",
    "servers",
    "false_max",
    "from",
    "to",
    "bound_ns",
    "drift_ppb",
    "reading_ns",
    "groups",
];

/// The members of a claim, by rising code; the first that is absent or of another kind is the
/// fault.
pub(crate) fn read_fields(alloc: Global, value: &Value) -> Result<Fields<'_>, ClaimFault>
    ensures exact { Answers result fields_data (fields_of (view value.now)) }
{
    members_among(value, &NAMES).ok_or(ClaimFault::Field(0))?;
    let client = text_at(value, "client").ok_or(ClaimFault::Field(1))?;
    let servers = texts_at(alloc, value, "servers")?.ok_or(ClaimFault::Field(2))?;
    let scalars = read_scalars(value)?;
    let groups = groups_at(alloc, value)?.ok_or(ClaimFault::Field(9))?;
    Ok(Fields {
        client,
        servers,
        false_max: scalars.false_max,
        begin: scalars.begin,
        end: scalars.end,
        bound_ns: scalars.bound_ns,
        drift_ppb: scalars.drift_ppb,
        reading_ns: scalars.reading_ns,
        groups,
    })
}

/// The members from `false_max` to `reading_ns`, each a number or a text.
#[derive(Clone, Copy)]
struct Scalars<'v> {
    false_max: u64,
    begin: &'v str,
    end: &'v str,
    bound_ns: u64,
    drift_ppb: u64,
    reading_ns: u64,
}

/// Those members, by rising code too.
fn read_scalars(value: &Value) -> Result<Scalars<'_>, ClaimFault>
    ensures exact { Gives result scalars_data (scalars_of (view value.now)) }
{
    let false_max = unsigned_at(value, "false_max").ok_or(ClaimFault::Field(3))?;
    let begin = text_at(value, "from").ok_or(ClaimFault::Field(4))?;
    let end = text_at(value, "to").ok_or(ClaimFault::Field(5))?;
    let bound_ns = unsigned_at(value, "bound_ns").ok_or(ClaimFault::Field(6))?;
    let drift_ppb = unsigned_at(value, "drift_ppb").ok_or(ClaimFault::Field(7))?;
    let reading_ns = unsigned_at(value, "reading_ns").ok_or(ClaimFault::Field(8))?;
    Ok(Scalars {
        false_max,
        begin,
        end,
        bound_ns,
        drift_ppb,
        reading_ns,
    })
}
