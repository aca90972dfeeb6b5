// Functions of the crate vectors for C or Rust to link. A slice is a pointer, then a length.
#![tactic(auto)]

ghost use Rattle.std.specs.Prelude.{◌≡◌, [], ◌∷◌, map, length};
ghost use Rattle.vectors.specs.Answer.{left_at};
ghost use Rattle.vectors.specs.Exp.{exp_of};
ghost use Rattle.vectors.specs.Fault.{fault_of, all_fit};
ghost use Rattle.vectors.specs.Grid.{spacing_of};
ghost use Rattle.vectors.specs.Stencil.{diff_of};

// exp of each value, in place.
#[unsafe(no_mangle)]
pub extern "C" fn vectors_exp_all(values: &mut [f64])
    ensures { values.new ≡ map exp_of values.old }
{
    vectors::exp::exp_all(values);
}

// The first difference of `vector` into `out`; answers 0, or 5 or 11 where it refuses.
#[unsafe(no_mangle)]
pub extern "C" fn vectors_diff(level: u32, vector: &[f64], out: &mut [f64]) -> u32
    ensures refused { result ≡ fault_of level (all_fit level (length vector.now ∷ length out.old ∷ [])) }
    ensures left { out.new ≡ left_at result (diff_of (spacing_of level) vector.now) out.old }
{
    match vectors::diff::diff(level, vector, out) {
        Ok(()) => 0,
        Err(refusal) => refusal.into(),
    }
}
