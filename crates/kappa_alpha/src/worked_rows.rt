ghost use Rattle.std.specs.Prelude.{◌≡◌, Some, None, pos};
ghost use Rattle.kappa_alpha.specs.Figures.{alpha_line, pair_line};
ghost use Rattle.kappa_alpha.specs.Steps.{changed, join_steps, relabel_steps};
ghost use Rattle.kappa_alpha.specs.Worked.{cid, no_difference, three_raters, two_raters};

/// What the definitions give for one document of four tokens, worked out by hand: the first rater
/// labels two tokens, the second the first of them, and then a third the first and the last.
pub fn worked_figures()
    ensures pair_of_two { pair_line two_raters 0 1 ≡
        record {
          first = 0;
          second = 1;
          units = 4;
          agreed = 3;
          kappa = Some
              (record { top = pos 4; bottom = pos 8 });
        } }
    ensures pair_without_a_row { pair_line two_raters 0 2 ≡
        record { first = 0; second = 2; units = 0; agreed = 0; kappa = None } }
    ensures alpha_of_two { alpha_line two_raters ≡
        record {
          units = 4;
          values = 8;
          alpha = Some
              (record { top = pos 5765760; bottom = pos 10810800 });
        } }
    ensures pair_of_three { pair_line three_raters 0 2 ≡
        record {
          first = 0;
          second = 2;
          units = 4;
          agreed = 2;
          kappa = Some
              (record { top = pos 0; bottom = pos 8 });
        } }
    ensures alpha_of_three { alpha_line three_raters ≡
        record {
          units = 4;
          values = 12;
          alpha = Some
              (record { top = pos 9369360; bottom = pos 25225200 });
        } }
    ensures pair_without_difference { pair_line no_difference 0 1 ≡
        record { first = 0; second = 1; units = 4; agreed = 4; kappa = None } }
    ensures alpha_without_difference { alpha_line no_difference ≡ record { units = 4; values = 8; alpha = None } }
    ensures third_row { join_steps 4 3 ≡ 92 }
    ensures third_row_again { relabel_steps 4 3 (changed cid cid 4) ≡ 8 }
{}
