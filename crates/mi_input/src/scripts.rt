//! Scripts.
ghost use Rattle.std.specs.Prelude.{◌≡◌, Ok, IfOk, IfErr};
ghost use Rattle.csv.specs.Records.{fields_of};
ghost use Rattle.mi_base.specs.Configuration.{metric_space};
ghost use Rattle.mi_input.specs.Faults.{ReadsAs, IsFaultOf};
ghost use Rattle.mi_base.specs.Scripts.{IsScriptOver};
ghost use Rattle.mi_input.specs.Scripts.{delete_in, id_in, insert_in, nearest_in, op_in, range_in, script_from, script_in};
ghost use Rattle.mi_input.specs.Vectors.{IsShape};
ghost use Rattle.mi_input.specs.Records.{records_in};

use crate::faults::{InputFault, Reason};
use crate::fields::{begins, field};
use crate::numbers::count;
use crate::records::Records;
use crate::vectors::Shape;
use csv::ByteRecord;
use mi_base::{Id, MAX_COUNT, MAX_ID, MAX_OPS, MAX_RADIUS, Op, Script, Settings};
use std::alloc::Global;

fn id_of(field: &[u8]) -> Result<Id, Reason>
    ensures { result ≡ id_in field.now }
{
    match Id::new(count(field, 0, MAX_ID)?) {
        Ok(id) => Ok(id),
        Err(_) => unreachable!(),
    }
}

#[tactic(auto, unfolding(crate::specs::Scripts::insert_in))]
fn insert_of(shape: &Shape, fields: &ByteRecord) -> Result<Op, Reason>
    requires { IsShape shape.now }
    ensures { result ≡ insert_in shape.now (fields_of fields.now) }
{
    if fields.len() != shape.dims + 2 {
        return Err(Reason::Fields);
    }
    let id = id_of(field(fields, 1))?;
    let vector = shape.vector(fields, 2)?;
    Ok(Op::Insert { id, vector })
}

#[tactic(auto, unfolding(crate::specs::Scripts::delete_in))]
fn delete_of(fields: &ByteRecord) -> Result<Op, Reason>
    ensures { result ≡ delete_in (fields_of fields.now) }
{
    if fields.len() != 2 {
        return Err(Reason::Fields);
    }
    let id = id_of(field(fields, 1))?;
    Ok(Op::Delete { id })
}

#[tactic(auto, unfolding(crate::specs::Scripts::range_in))]
fn range_of(shape: &Shape, fields: &ByteRecord) -> Result<Op, Reason>
    requires { IsShape shape.now }
    ensures { result ≡ range_in shape.now (fields_of fields.now) }
{
    if fields.len() != shape.dims + 2 {
        return Err(Reason::Fields);
    }
    let radius = count(field(fields, 1), 0, MAX_RADIUS as u64)? as u32;
    let query = shape.vector(fields, 2)?;
    Ok(Op::Range { radius, query })
}

#[tactic(auto, unfolding(crate::specs::Scripts::nearest_in))]
fn nearest_of(shape: &Shape, fields: &ByteRecord) -> Result<Op, Reason>
    requires { IsShape shape.now }
    ensures { result ≡ nearest_in shape.now (fields_of fields.now) }
{
    if fields.len() != shape.dims + 2 {
        return Err(Reason::Fields);
    }
    let count = count(field(fields, 1), 1, MAX_COUNT as u64)? as u32;
    let query = shape.vector(fields, 2)?;
    Ok(Op::Nearest { count, query })
}

// The operation in the record of this number.
#[tactic(auto, unfolding(crate::specs::Scripts::op_in))]
fn op_of(shape: &Shape, number: u32, fields: &ByteRecord) -> Result<Op, Reason>
    requires { IsShape shape.now }
    ensures { result ≡ op_in shape.now number (fields_of fields.now) }
{
    let inserts = begins(fields, b"insert");
    let deletes = begins(fields, b"delete");
    let ranges = begins(fields, b"range");
    let nearest = begins(fields, b"nearest");
    if !inserts && !deletes && !ranges && !nearest {
        return Err(Reason::Word);
    }
    if number > MAX_OPS {
        return Err(Reason::Limit);
    }
    if inserts {
        insert_of(shape, fields)
    } else if deletes {
        delete_of(fields)
    } else if ranges {
        range_of(shape, fields)
    } else {
        nearest_of(shape, fields)
    }
}

fn script_of(alloc: Global, bytes: &[u8], shape: &Shape) -> Result<Script, InputFault>
    requires { IsShape shape.now }
    ensures { ReadsAs (λ script. script) result (script_from shape.now 1 (records_in bytes.now)) }
{
    let mut records = Records::new(alloc, bytes)?;
    let mut script = Script::new(alloc);
    while let Some(fields) = records.current() {
        match op_of(shape, records.number(), fields) {
            Ok(op) => script.push(op)?,
            Err(why) => return Err(records.fault(why)),
        }
        records.advance()?;
    }
    Ok(script)
}

/// The script in a file of these bytes. Each vector has the settings' number of coordinates, and each coordinate is
/// from -1,000,000 to 1,000,000, or under a table the number of a row.
pub fn read_script(alloc: Global, bytes: &[u8], settings: &Settings) -> Result<Script, InputFault>
    ensures ok { IfOk result (λ script. script_in settings.now bytes.now ≡ Ok script) }
    ensures script { IfOk result (IsScriptOver (metric_space settings.now)) }
    ensures err { IfErr result (IsFaultOf (script_in settings.now bytes.now)) }
{
    script_of(alloc, bytes, &Shape::of(settings))
}
