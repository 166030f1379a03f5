use proof_lines::{Chain, Claim, Proof, ProofLine, ProofLines, Rule, RuleName};
use rdf_terms::{Numbers, Places};
use std::test::Fail;

#[test]
fn proofs_are_lists_of_lines(rt: HostRuntime) -> Result<(), Fail> {
    let alloc = rt.alloc();
    let mut numbers = Numbers::new(alloc);
    numbers.push(7)?;
    let mut lines = ProofLines::new(alloc);
    assert!(rt; lines.as_slice().is_empty());
    lines.push(ProofLine::Rule(Rule {
        name: RuleName::Undo,
        numbers,
    }))?;
    let proof = Proof {
        claim: Claim::Pair,
        lines,
    };
    assert_eq!(rt; proof.lines.as_slice().len(), 1);
    let mut chain = Chain::new(alloc);
    chain.push(Places::new(alloc))?;
    assert_eq!(rt; chain.as_slice().len(), 1);
    assert!(rt; chain.as_slice()[0].as_slice().is_empty());
    Ok(())
}
