// Writing the text of a certificate.

ghost use Rattle.std.specs.Prelude.{◌≡◌, ◌++◌, ◌∷◌, [], map, decimal, IfOk, OnOk};
ghost use Rattle.hsp_cert.specs.Text.{line_of, unlines, use_items, price_items, row_items, body_items, version_of};
ghost use Rattle.hsp_cert.specs.Text.{text_of};
ghost use Rattle.hsp_cert.specs.Certificate.Claim.{best, short};

use crate::certificate::{Certificate, PricedPlan, ShortSet, Shown};
use crate::item::{Item, Word, spelled};
use crate::use_line::UseLine;
use hsp_text::push_number;
use std::alloc::{AllocError, Global};

// Appends what an item says.
fn push_item(out: &mut Vec<u8>, item: Item) -> Result<(), AllocError>
    ensures { OnOk result (out.new.items ≡ out.old.items ++ line_of item) }
{
    match item {
        Item::Alone(word) => out.extend_from_slice(spelled(word)),
        Item::One(word, first) => {
            out.extend_from_slice(spelled(word))?;
            push_number(out, first)
        }
        Item::Two(word, first, second) => {
            out.extend_from_slice(spelled(word))?;
            push_number(out, first)?;
            push_number(out, second)
        }
        Item::Three(word, first, second, third) => {
            out.extend_from_slice(spelled(word))?;
            push_number(out, first)?;
            push_number(out, second)?;
            push_number(out, third)
        }
    }
}

// Appends a line and its LF.
fn push_line(out: &mut Vec<u8>, item: Item) -> Result<(), AllocError>
    ensures { OnOk result (out.new.items ≡ out.old.items ++ (line_of item ++ 10 ∷ [])) }
{
    push_item(out, item)?;
    out.push(b'\n')?;
    Ok(())
}

fn push_uses(out: &mut Vec<u8>, uses: &[UseLine]) -> Result<(), AllocError>
    ensures { OnOk result
        (out.new.items ≡ out.old.items ++ unlines (map line_of (use_items uses.now))) }
{
    for one in uses {
        push_line(
            out,
            Item::Three(
                Word::Use,
                u64::from(one.row),
                u64::from(one.site),
                one.count,
            ),
        )?;
    }
    Ok(())
}

fn push_prices(out: &mut Vec<u8>, word: Word, prices: &[u64]) -> Result<(), AllocError>
    ensures { OnOk result
        (out.new.items ≡ out.old.items ++ unlines (map line_of (price_items word 0 prices.now))) }
{
    for (number, price) in prices.iter().enumerate() {
        push_line(out, Item::Two(word, number as u64, *price))?;
    }
    Ok(())
}

fn push_rows(out: &mut Vec<u8>, rows: &[u32]) -> Result<(), AllocError>
    ensures { OnOk result
        (out.new.items ≡ out.old.items ++ unlines (map line_of (row_items rows.now))) }
{
    for row in rows {
        push_line(out, Item::One(Word::Row, u64::from(*row)))?;
    }
    Ok(())
}

/// The version of a text, by its host prices.
pub(crate) fn version_of(host_prices: &[u64]) -> u64
    ensures { result ≡ version_of host_prices.now }
{
    match host_prices {
        [] => 1,
        [_, ..] => 2,
    }
}

// Appends the lines between the cost and the end.
fn push_body(out: &mut Vec<u8>, plan: &PricedPlan) -> Result<(), AllocError>
    ensures { OnOk result
        (out.new.items ≡ out.old.items ++ unlines (map line_of (body_items plan.now))) }
{
    push_uses(out, &plan.uses)?;
    push_prices(out, Word::Row, &plan.row_prices)?;
    push_prices(out, Word::Server, &plan.server_prices)?;
    push_prices(out, Word::Host, &plan.host_prices)?;
    Ok(())
}

fn push_plan(out: &mut Vec<u8>, plan: &PricedPlan) -> Result<(), AllocError>
    ensures { OnOk result (out.new.items ≡ out.old.items ++ text_of (best plan.now)) }
{
    push_line(out, Item::One(Word::Version, version_of(&plan.host_prices)))?;
    push_line(out, Item::Alone(Word::Plan))?;
    push_line(out, Item::One(Word::Cost, plan.cost))?;
    push_body(out, plan)?;
    push_line(out, Item::Alone(Word::End))?;
    Ok(())
}

fn push_shortage(out: &mut Vec<u8>, set: &ShortSet) -> Result<(), AllocError>
    ensures { OnOk result (out.new.items ≡ out.old.items ++ text_of (short set.now)) }
{
    push_line(out, Item::One(Word::Version, 1))?;
    push_line(out, Item::Alone(Word::Shortage))?;
    push_line(out, Item::One(Word::Demand, set.demand))?;
    push_line(out, Item::One(Word::Capacity, set.capacity))?;
    push_rows(out, &set.rows)?;
    push_line(out, Item::Alone(Word::End))?;
    Ok(())
}

// The room for a text: what its lines take, unless prices are at their longest. No clause speaks of it.
fn room_of(shown: &Shown) -> usize {
    const LINE: usize = 24;
    let lines = match shown {
        Shown::Plan(plan) => plan
            .uses
            .len()
            .saturating_add(plan.row_prices.len())
            .saturating_add(plan.server_prices.len())
            .saturating_add(plan.host_prices.len()),
        Shown::Shortage(set) => set.rows.len(),
    };
    lines.saturating_add(5).saturating_mul(LINE)
}

/// The text of a certificate.
///
/// ```
/// let rows = Vec::from_slice(alloc, &[2])?;
/// let certificate = Certificate::short(rows, 9, 8).unwrap();
/// let text = write_cert(alloc, &certificate)?;
/// assert!(rt; text.as_slice() == b"HSPLAN 1\nSHORTAGE\ndemand 9\ncapacity 8\nrow 2\nEND\n".as_slice());
/// ```
///
/// # Errors
///
/// An `AllocError` where memory runs out.
pub fn write_cert(alloc: Global, certificate: &Certificate) -> Result<Vec<u8>, AllocError>
    ensures { IfOk result (λ text. text.items ≡ text_of certificate.now) }
{
    let mut out = Vec::with_capacity(alloc, room_of(&certificate.shown))?;
    match &certificate.shown {
        Shown::Plan(plan) => push_plan(&mut out, plan)?,
        Shown::Shortage(set) => push_shortage(&mut out, set)?,
    }
    Ok(out)
}
