// The names of the reasons against a certificate by prices.

ghost use Rattle.std.specs.Prelude.{◌≡◌};
ghost use Rattle.hsp_inputs.specs.PriceReasons.{reason_word};

use hsp_prices::PriceReason;

/// The name of a reason.
pub fn price_reason_word(reason: PriceReason) -> &'static [u8]
    ensures { result.now ≡ reason_word reason }
{
    match reason {
        PriceReason::Shape => b"Shape",
        PriceReason::NoSuchServer => b"NoSuchServer",
        PriceReason::NotLeast => b"NotLeast",
        PriceReason::NoClass => b"NoClass",
        PriceReason::ClassSum => b"ClassSum",
        PriceReason::Load => b"Load",
        PriceReason::Cost => b"Cost",
        PriceReason::IdlePrice => b"IdlePrice",
        PriceReason::DemandSum => b"DemandSum",
        PriceReason::CapacitySum => b"CapacitySum",
        PriceReason::NotShort => b"NotShort",
    }
}
