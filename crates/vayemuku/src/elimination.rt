// Module 2, elimination. A system is twenty rows of twenty, and `size` says how many of each count, since the library
// takes no memory. C has no Result: `values` gets the answer, and the number of the refusal, or 0, is returned.
ghost use Rattle.std.specs.Prelude.{◌≡◌};
ghost use Rattle.columns.specs.Refusals.{answer_number, ◌and◌};
ghost use Rattle.gauss.specs.Solutions.{solution, solved_values};

// `values` gets the answer, with 0 past the size, or twenty NaN.
#[unsafe(no_mangle)]
pub extern "C" fn vayemuku_solve(
    left: &[[f64; 20]; 20],
    right: &[f64; 20],
    size: usize,
    values: &mut [f64; 20],
) -> u32
    ensures { let solved = solution left.now right.now size in
        result and values.new ≡ answer_number solved and solved_values solved }
{
    let solved = gauss::solve_at(left, right, size);
    *values = gauss::solved_values(solved);
    columns::answer_number(&solved)
}
