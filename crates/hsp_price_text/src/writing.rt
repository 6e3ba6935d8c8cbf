// Writing the text of a certificate by prices.

ghost use Rattle.std.specs.Prelude.{◌≡◌, ◌++◌, ◌∷◌, [], IfOk, OnOk, map};
ghost use Rattle.hsp_cert.specs.Text.{unlines};
ghost use Rattle.hsp_price_text.specs.declared.certificate.PriceCertificate.TheVariants.{Plan, Shortage};
ghost use Rattle.hsp_price_text.specs.Text.{class_line, in_turn, numbered, price_lines, server_line, spaced, text_of};
ghost use Rattle.hsp_price_text.specs.Text.{version};

use crate::certificate::{PriceCertificate, PricedPlan, ShortServers};
use crate::class::Class;
use hsp_text::push_number;
use std::alloc::{AllocError, Global};

// Appends a word, numbers behind it, and an LF.
fn push_numbered(out: &mut Vec<u8>, word: &[u8], numbers: &[u64]) -> Result<(), AllocError>
    ensures { OnOk result
        (out.new.items ≡ out.old.items ++ unlines (numbered word.now numbers.now ∷ [])) }
{
    out.extend_from_slice(word)?;
    for number in numbers {
        push_number(out, *number)?;
    }
    out.push(b'\n')?;
    Ok(())
}

// Appends the lines of prices.
fn push_prices(out: &mut Vec<u8>, word: &[u8], prices: &[u64]) -> Result<(), AllocError>
    ensures { OnOk result
        (out.new.items ≡ out.old.items ++ unlines (price_lines word.now 0 prices.now)) }
{
    for (number, price) in prices.iter().enumerate() {
        push_numbered(out, word, &[number as u64, *price])?;
    }
    Ok(())
}

// Appends servers and amounts by turns.
fn push_turns(out: &mut Vec<u8>, servers: &[u32], amounts: &[u64]) -> Result<(), AllocError>
    ensures { OnOk result
        (out.new.items ≡ out.old.items ++ spaced (in_turn servers.now amounts.now)) }
{
    for (server, amount) in servers.iter().zip(amounts) {
        push_number(out, u64::from(*server))?;
        push_number(out, *amount)?;
    }
    Ok(())
}

// Appends the line of a class.
fn push_class(out: &mut Vec<u8>, class: &Class) -> Result<(), AllocError>
    ensures { OnOk result (out.new.items ≡ out.old.items ++ unlines (class_line class.now ∷ [])) }
{
    out.extend_from_slice(b"class ")?;
    out.extend_from_slice(&class.region)?;
    push_turns(out, &class.servers, &class.amounts)?;
    out.push(b'\n')?;
    Ok(())
}

// Appends the lines of classes.
fn push_classes(out: &mut Vec<u8>, classes: &[Class]) -> Result<(), AllocError>
    ensures { OnOk result
        (out.new.items ≡ out.old.items ++ unlines (map class_line classes.now)) }
{
    for class in classes {
        push_class(out, class)?;
    }
    Ok(())
}

// Appends the lines of servers.
fn push_servers(out: &mut Vec<u8>, servers: &[u32]) -> Result<(), AllocError>
    ensures { OnOk result
        (out.new.items ≡ out.old.items ++ unlines (map server_line servers.now)) }
{
    for server in servers {
        push_numbered(out, b"server", &[u64::from(*server)])?;
    }
    Ok(())
}

// Appends the text of a plan.
fn push_plan(out: &mut Vec<u8>, plan: &PricedPlan) -> Result<(), AllocError>
    ensures { OnOk result (out.new.items ≡ out.old.items ++ text_of (Plan plan.now)) }
{
    out.extend_from_slice(b"HSPLAN PRICES 1\nPLAN\n")?;
    push_numbered(out, b"cost", &[plan.cost()])?;
    push_prices(out, b"server", plan.server_prices())?;
    push_prices(out, b"host", plan.host_prices())?;
    push_classes(out, plan.classes())?;
    out.extend_from_slice(b"END\n")?;
    Ok(())
}

// Appends the text of a short set.
fn push_shortage(out: &mut Vec<u8>, set: &ShortServers) -> Result<(), AllocError>
    ensures { OnOk result (out.new.items ≡ out.old.items ++ text_of (Shortage set.now)) }
{
    out.extend_from_slice(b"HSPLAN PRICES 1\nSHORT\n")?;
    push_servers(out, set.servers())?;
    push_numbered(out, b"demand", &[set.demand()])?;
    push_numbered(out, b"capacity", &[set.capacity()])?;
    out.extend_from_slice(b"END\n")?;
    Ok(())
}

/// The text of a certificate.
///
/// # Errors
///
/// An `AllocError` where memory runs out.
pub fn write_prices(alloc: Global, certificate: &PriceCertificate) -> Result<Vec<u8>, AllocError>
    ensures { IfOk result (λ text. text.items ≡ text_of certificate.now) }
{
    let mut out = Vec::new(alloc);
    match certificate {
        PriceCertificate::Plan(plan) => push_plan(&mut out, plan)?,
        PriceCertificate::Shortage(set) => push_shortage(&mut out, set)?,
    }
    Ok(out)
}
