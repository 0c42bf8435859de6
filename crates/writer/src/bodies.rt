// A record's body put at a pen piece by piece, and measured: name, numbers, names, bytes, references.
ghost use Rattle.std.specs.Prelude.{◌≡◌, ℕ, ◌≤◌, List, [], ◌++◌, length};
ghost use Rattle.format.specs.Bytes.{zeros_in};
ghost use Rattle.format.specs.Record.{content_of, given_content};
ghost use Rattle.format.specs.Encode.{body_bytes};
ghost use Rattle.writer.specs.Pens.{pen_after, put_of, Paced, Sized};
ghost use Rattle.writer.specs.Layouts.{layout_of, Puttable, used_of, packed_of};
ghost use Rattle.writer.specs.Plans.{Planned};

use crate::pack::{measure_packed, put_packed};
use crate::pens::{Pen, measure_bytes, put_bytes};
use crate::small::small_of;
use format::small::zeros_in;
use format::{Fields, Given, Mode};

// How many bytes of each given slice a kind has.
#[derive(Drop)]
struct Used {
    name: usize,
    names: usize,
    rest: usize,
}

// The same of slices as long as that.
fn used_of(fields: Fields, name: usize, names: usize, rest: usize) -> Used
    ensures { result ≡ used_of fields name names rest }
{
    match fields {
        Fields::Text { .. } | Fields::Raw => Used {
            name: 0,
            names: 0,
            rest,
        },
        Fields::Popularimeter { .. } => Used {
            name,
            names: 0,
            rest: 0,
        },
        Fields::Table { .. } => Used {
            name: 0,
            names: 0,
            rest: 0,
        },
        Fields::Chapter { .. } => Used {
            name,
            names: 0,
            rest,
        },
        Fields::Contents { .. } => Used { name, names, rest },
    }
}

// Puts the references at the pen, where the kind has them.
fn put_references(
    buffer: &mut [u8],
    pen: Pen,
    mode: Mode,
    fields: Fields,
    deviations: &[u32],
) -> Pen
    requires puttable { Puttable (content_of fields [] [] [] deviations.now) }
    requires deviations_in_bounds { (pen_after mode pen (packed_of fields deviations.now)).at ≤ length buffer.old }
    ensures { (result, buffer.new) ≡ put_of mode pen (packed_of fields deviations.now) buffer.old }
{
    if let Fields::Table {
        bits_for_bytes,
        bits_for_millis,
        ..
    } = fields
    {
        put_packed(
            buffer,
            pen,
            mode,
            deviations,
            bits_for_bytes,
            bits_for_millis,
        )
    } else {
        pen
    }
}

// The place after them, which are not put.
// Kept: a twin of put_references: putting asks for room and says each byte, measuring asks for nothing and stops counting at LIMIT.
#[tactic(auto, using(crate::proofs::Layouts::no_references, crate::proofs::Puts::pen_nil))]
fn measure_references(pen: Pen, mode: Mode, fields: Fields, deviations: &[u32]) -> usize
    requires { Puttable (content_of fields [] [] [] deviations.now) }
    ensures { Sized (pen_after mode pen (packed_of fields deviations.now)).at result }
{
    if let Fields::Table {
        bits_for_bytes,
        bits_for_millis,
        ..
    } = fields
    {
        measure_packed(pen, mode, deviations, bits_for_bytes, bits_for_millis)
    } else {
        pen.at
    }
}

// What a body has of the given slices, and the bytes made of its numbers.
#[derive(Drop)]
struct Plan {
    name: usize,
    names: usize,
    rest: usize,
    bytes: [u8; 17],
    len: usize,
}

// The pieces of a body.
fn plan_of(fields: Fields, given: &Given<'_>) -> Plan
    requires { (ds : List ℕ) → zeros_in (layout_of (content_of fields given.now.name.now given.now.names.now given.now.rest.now ds)).names ≤ 255 }
    ensures { Planned fields given.now.name.now given.now.names.now given.now.rest.now result }
{
    let used = used_of(
        fields,
        given.name.len(),
        given.names.len(),
        given.rest.len(),
    );
    let small = small_of(fields, zeros_in(&given.names[..used.names]));
    let bytes = small.bytes;
    Plan {
        name: used.name,
        names: used.names,
        rest: used.rest,
        bytes,
        len: small.len,
    }
}

// Puts four pieces at the pen, one after another.
fn put_pieces(
    buffer: &mut [u8],
    pen: Pen,
    mode: Mode,
    a: &[u8],
    b: &[u8],
    c: &[u8],
    d: &[u8],
) -> Pen
    requires { (pen_after mode pen (a.now ++ (b.now ++ (c.now ++ d.now)))).at ≤ length buffer.old }
    ensures { (result, buffer.new) ≡ put_of mode pen (a.now ++ (b.now ++ (c.now ++ d.now))) buffer.old }
{
    let first = put_bytes(buffer, pen, mode, a);
    let second = put_bytes(buffer, first, mode, b);
    let third = put_bytes(buffer, second, mode, c);
    put_bytes(buffer, third, mode, d)
}

// The pen after four pieces, which are not put.
// Kept: a twin of put_pieces: putting asks for room and says each byte, measuring asks for nothing and stops counting at LIMIT.
fn measure_pieces(pen: Pen, mode: Mode, a: &[u8], b: &[u8], c: &[u8], d: &[u8]) -> Pen
    ensures { Paced (pen_after mode pen (a.now ++ (b.now ++ (c.now ++ d.now)))) result }
{
    let first = measure_bytes(pen, mode, a);
    let second = measure_bytes(first, mode, b);
    let third = measure_bytes(second, mode, c);
    measure_bytes(third, mode, d)
}

// Puts the body at the pen. A slice that the kind does not have is not looked at.
#[tactic(auto, using(crate::proofs::Layouts::few_names, crate::proofs::Layouts::references_puttable))]
pub(crate) fn put_body(
    buffer: &mut [u8],
    pen: Pen,
    mode: Mode,
    fields: Fields,
    given: &Given<'_>,
) -> Pen
    requires { let content = given_content fields given.now in
        Puttable content × ((pen_after mode pen (body_bytes content)).at ≤ length buffer.old) }
    ensures { let content = given_content fields given.now in
        (result, buffer.new) ≡ put_of mode pen (body_bytes content) buffer.old }
{
    let plan = plan_of(fields, given);
    let next = put_pieces(
        buffer,
        pen,
        mode,
        &given.name[..plan.name],
        &plan.bytes[..plan.len],
        &given.names[..plan.names],
        &given.rest[..plan.rest],
    );
    put_references(buffer, next, mode, fields, given.deviations)
}

// The place after the body, which is not put.
// Kept: a twin of put_body: putting asks for room and says each byte, measuring asks for nothing and stops counting at LIMIT.
#[tactic(auto, using(crate::proofs::Layouts::few_names, crate::proofs::Layouts::references_puttable))]
pub(crate) fn measure_body(pen: Pen, mode: Mode, fields: Fields, given: &Given<'_>) -> usize
    requires { Puttable (given_content fields given.now) }
    ensures { let content = given_content fields given.now in
        Sized (pen_after mode pen (body_bytes content)).at result }
{
    let plan = plan_of(fields, given);
    let next = measure_pieces(
        pen,
        mode,
        &given.name[..plan.name],
        &plan.bytes[..plan.len],
        &given.names[..plan.names],
        &given.rest[..plan.rest],
    );
    measure_references(next, mode, fields, given.deviations)
}
