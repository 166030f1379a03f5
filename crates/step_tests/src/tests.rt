ghost use Rattle.std.specs.Prelude.{◌≡◌, IfOk, IsTrue};
ghost use Rattle.clause_store.specs.Clauses.{is_clause, is_within, are_within};
ghost use Rattle.clause_store.specs.Stored.{stored};

use clause_store::{ClauseStore, Lit, Lits, PlainStore};
use rdf_terms::OutOfMemory;
use refute_check::{Marks, StepRefusal, check_step, is_refuted};
use std::alloc::Global;
use std::test::Fail;

const A: Lit = Lit {
    var: 0,
    positive: true,
};

const NOT_A: Lit = Lit {
    var: 0,
    positive: false,
};

const B: Lit = Lit {
    var: 1,
    positive: true,
};

const NOT_B: Lit = Lit {
    var: 1,
    positive: false,
};

/// Marks for the variables of these tests.
fn marks_for_two(alloc: Global) -> Result<Marks, OutOfMemory>
    ensures { IfOk result (λ m. m ≡ 2) }
{
    let mut marks = Marks::new(alloc);
    marks.reserve(2)?;
    Ok(marks)
}

/// Appends a clause for whose variables the marks are reserved.
fn add<S: ClauseStore>(store: &mut S, marks: &Marks, lits: &[Lit]) -> Result<(), OutOfMemory>
    requires clause { IsTrue (is_clause lits.now) }
    requires within { IsTrue (is_within marks.now lits.now) }
    requires reserved { IsTrue (are_within marks.now (S.clauses store.old)) }
    ensures { IsTrue (are_within marks.now (S.clauses store.new)) }
{
    store.push(lits)?;
    Ok(())
}

/// The four clauses over two variables.
fn four_clauses(alloc: Global, marks: &Marks) -> Result<PlainStore, OutOfMemory>
    requires { marks.now ≡ 2 }
    ensures { IfOk result (λ s. IsTrue (are_within marks.now (stored s))) }
{
    let mut store = PlainStore::new(alloc);
    add(&mut store, marks, &[A, B])?;
    add(&mut store, marks, &[NOT_A, B])?;
    add(&mut store, marks, &[A, NOT_B])?;
    add(&mut store, marks, &[NOT_A, NOT_B])?;
    Ok(store)
}

#[test]
fn steps_are_checked(rt: HostRuntime) -> Result<(), Fail> {
    let mut marks = marks_for_two(rt.alloc())?;
    let mut store = four_clauses(rt.alloc(), &marks)?;
    let steps: [([u64; 2], Result<usize, StepRefusal>); 9] = [
        // a clash in two literals
        ([0, 3], Err(StepRefusal::NoSingleClash { position: 1 })),
        // no clash
        ([0, 0], Err(StepRefusal::NoSingleClash { position: 1 })),
        // its own id
        ([0, 4], Err(StepRefusal::UnknownId { position: 1 })),
        ([9, 0], Err(StepRefusal::UnknownId { position: 0 })),
        ([0, 1], Ok(4)),
        ([2, 3], Ok(5)),
        ([4, 4], Err(StepRefusal::NoSingleClash { position: 1 })),
        ([4, 5], Ok(6)),
        ([6, 0], Err(StepRefusal::NoSingleClash { position: 1 })),
    ];
    for (ids, expected) in steps {
        assert_eq!(rt; is_refuted(&store), store.len() == 7);
        assert_eq!(rt;
            check_step(&mut store, &mut marks, &ids),
            expected,
            "at {ids:?}"
        );
    }
    assert!(rt; is_refuted(&store));
    Ok(())
}

#[test]
fn chains_resolve_in_order(rt: HostRuntime) -> Result<(), Fail> {
    let mut marks = marks_for_two(rt.alloc())?;
    let mut store = four_clauses(rt.alloc(), &marks)?;
    assert_eq!(rt;
        check_step(&mut store, &mut marks, &[0, 1, 2, 0]),
        Err(StepRefusal::NoSingleClash { position: 3 })
    );
    assert_eq!(rt; check_step(&mut store, &mut marks, &[0, 1, 2, 3]), Ok(4));
    let places = store.len();
    assert_eq!(rt; places, 5);
    if places == 5 {
        assert_eq!(rt; store.clause(4), [NOT_B].as_slice());
    }
    Ok(())
}

#[test]
fn literals_are_listed(rt: HostRuntime) -> Result<(), Fail> {
    let mut lits = Lits::new(rt.alloc());
    lits.push(NOT_B)?;
    lits.push(A)?;
    assert_eq!(rt; lits.as_slice(), [NOT_B, A].as_slice());
    Ok(())
}
