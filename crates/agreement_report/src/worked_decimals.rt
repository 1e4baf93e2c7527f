//! The definition at work on a few fractions. The function does nothing; its clauses are computed when the crate is checked.
ghost use Rattle.std.specs.Prelude.{◌≡◌, ◌^◌, codes, neg_ℤ, pos};
ghost use Rattle.agreement_report.specs.Decimals.{decimals_text};

/// The decimals of fractions at their edges: cut and not rounded, a minus only where the cut value is not zero, whole parts of
/// any length, and the greatest and least numbers that can be written.
pub fn examples_of_decimals()
    ensures cut { decimals_text (record { top = pos 7; bottom = pos 11 }) ≡ codes "0.6363" }
    ensures one { decimals_text (record { top = pos 1; bottom = pos 1 }) ≡ codes "1.0000" }
    ensures nothing { decimals_text (record { top = pos 0; bottom = pos 8 }) ≡ codes "0.0000" }
    ensures least_minus { decimals_text (record { top = neg_ℤ (pos 1); bottom = pos 10000 }) ≡ codes "-0.0001" }
    ensures no_minus { decimals_text (record { top = neg_ℤ (pos 1); bottom = pos 20000 }) ≡ codes "0.0000" }
    ensures below_minus_one { decimals_text (record { top = neg_ℤ (pos 3); bottom = pos 2 }) ≡ codes "-1.5000" }
    ensures two_digits { decimals_text (record { top = pos 201; bottom = pos 20 }) ≡ codes "10.0500" }
    ensures below_one { decimals_text (record { top = pos 99999; bottom = pos 100000 }) ≡ codes "0.9999" }
    ensures above_minus_one { decimals_text (record { top = neg_ℤ (pos 99999); bottom = pos 100000 }) ≡ codes "-0.9999" }
    ensures greatest { decimals_text (record { top = pos (2 ^ 100); bottom = pos 1 }) ≡ codes "1267650600228229401496703205376.0000" }
    ensures least { decimals_text (record { top = neg_ℤ (pos (2 ^ 100)); bottom = pos 1 }) ≡ codes "-1267650600228229401496703205376.0000" }
    ensures smallest { decimals_text (record { top = pos 1; bottom = pos (2 ^ 100) }) ≡ codes "0.0000" }
{}
