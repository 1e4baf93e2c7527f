ghost use Rattle.std.specs.Prelude.{◌≡◌, ◌<◌, ◌≤◌, ◌^◌, IfOk};
ghost use Rattle.kappa_alpha.specs.Figures.{Writable};
ghost use Rattle.agreement_report.specs.Decimals.{decimals_text, filling, sign_of, ten_thousandths};

use kappa_alpha::Fraction;
use mark_base::{Memory, Text};
use std::alloc::Global;

/// A fraction without its sign, in ten-thousandths cut towards zero.
fn cut_of(f: Fraction) -> u128
    requires { Writable f }
    ensures { result ≡ ten_thousandths f }
{
    f.top.unsigned_abs() * 10_000 / f.bottom.unsigned_abs()
}

/// The minus of a fraction whose cut value is not zero.
fn minus_of(f: Fraction, cut: u128) -> &'static str
    requires { cut ≡ ten_thousandths f }
    ensures { result.now ≡ sign_of f }
{
    if f.top < 0 && cut > 0 { "-" } else { "" }
}

/// What fills a number to four digits.
fn filling_of(n: u128) -> &'static str
    requires { n < 10000 }
    ensures { result.now ≡ filling n }
{
    if n < 10 {
        "000"
    } else if n < 100 {
        "00"
    } else if n < 1000 {
        "0"
    } else {
        ""
    }
}

/// A fraction with four decimals, cut towards zero, as `0.5333` or `-0.2500`: the minus stands only
/// where the cut value is not zero.
pub fn decimals(alloc: Global, f: Fraction) -> Result<Text, Memory>
    requires { Writable f }
    ensures { IfOk result (λ text. text ≡ decimals_text f) }
{
    let cut = cut_of(f);
    let (whole, rest) = (cut / 10_000, cut % 10_000);
    let minus = minus_of(f, cut);
    let filling = filling_of(rest);
    let text = format!(in alloc; "{minus}{whole}.{filling}{rest}")?;
    Ok(Text::from_string(text))
}
