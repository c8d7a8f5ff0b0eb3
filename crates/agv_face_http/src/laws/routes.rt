//! A law of the table of routes, whatever the code does. The function does nothing: its clause is the law.
ghost use Rattle.std.specs.Prelude.{ℕ, List, AllPairs};
ghost use Rattle.agv_face_http.specs.routing.Table.{table, Fits};

/// Proves that no path matches two lines of the table, so that their order doesn't matter.
pub fn fits_one_line()
    ensures { (segments : List (List ℕ)) → AllPairs (λ one other. Fits one segments → Fits other segments → ⊥) table }
{}
