// The classes of a plan, found by their regions and servers.

ghost use Rattle.std.specs.Prelude.{◌≡◌, ◌≤◌, ◌<◌, IfOk, length, position, ◌^◌, List};
ghost use Rattle.hsp_price_text.specs.Claim.{Class};
ghost use Rattle.hsp_price_check.specs.ClassNumbers.{HasClasses, is_named};

use crate::keys::LentKind;
use crate::kind_rows::{FirstNumbers, add_first};
use hsp_price_text::Class;
use std::alloc::{AllocError, Global};

/// The number of the first class of each region and servers, from 0, in the order of the classes.
///
/// # Errors
///
/// An `AllocError` where memory runs out.
pub fn class_numbers(alloc: Global, classes: &[Class]) -> Result<FirstNumbers, AllocError>
    requires { length classes.now < 2 ^ 32 }
    ensures { IfOk result (λ numbers. HasClasses classes.now numbers.entries) }
{
    let mut numbers = FirstNumbers::new(alloc);
    for number in 0..classes.len() {
        let class = &classes[number];
        let key = LentKind {
            region: &class.region,
            places: &class.servers,
        };
        add_first(alloc, &mut numbers, key, number as u32)?;
    }
    Ok(numbers)
}

/// The number of the class of this region and these servers, or None where there is none.
pub fn find_class(numbers: &FirstNumbers, region: &[u8], servers: &[u32]) -> Option<u32>
    ensures { (classes : List Class) → HasClasses classes numbers.now.entries
        → result ≡ position (is_named region.now servers.now) classes }
{
    let places = servers;
    numbers.get(LentKind { region, places }).copied()
}
