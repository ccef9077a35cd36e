// The work cells of a task under analysis, lent to those that only read them. The type says how far they are filled, so that no
// reader has to ask for it, and its model is what the cells are of: task a of transaction u of a table. What fills them (`prepare`,
// `weigh`, `link`) keeps clauses on the array: of a value that borrowed it by `&mut` no contract could say what the array holds
// afterwards, and the weights of the next task go into the same cells.
ghost use Rattle.row.specs.Row.{table_of};
ghost use Rattle.answers.specs.Analysed.{Analysed};
ghost use Rattle.answers.specs.Work.{Lent, Weighs, IsSubject};

use super::charges::Subject;
use super::layout::Work;
use std::marker::Model;

// Work cells with the weights of the subject's rivals.
#[derive(Drop)]
pub(crate) struct Weighed<'a> {
    pub(crate) work: &'a [u32; Work::CELLS],
    pub(crate) s: Subject,
}

impl<'a> Model for Weighed<'a> {
    ghost Value = { Analysed };

    ghost view = { λ x. record { tab = table_of x.work.now; u = x.s.u; a = x.s.a } };

    ghost invariant = { λ x. Lent x.work.now × Weighs x.work.now x.s };
}

// With the links over what its rivals charge, too.
#[derive(Drop)]
pub(crate) struct Linked<'a> {
    pub(crate) work: &'a [u32; Work::CELLS],
    pub(crate) s: Subject,
}

impl<'a> Model for Linked<'a> {
    ghost Value = { Analysed };

    ghost view = { λ x. record { tab = table_of x.work.now; u = x.s.u; a = x.s.a } };

    ghost invariant = { λ x. Lent x.work.now × IsSubject x.work.now x.s };
}
