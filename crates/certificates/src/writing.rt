ghost use Rattle.std.specs.Prelude.{◌≡◌, ◌++◌, [], ◌∷◌, All, IfOk, IfSome, OnOk, None, codes, decimal, flat_map};
ghost use Rattle.std.specs.Option.{option_copied};
ghost use Rattle.ntriples_io.specs.CanonicalText.{line_text};
ghost use Rattle.repair_problem.specs.Changes.{AreCandidates};
ghost use Rattle.proof_documents.specs.Document.{AreShort};
ghost use Rattle.proof_documents.specs.DocumentText.{line as line_text_of, claim_text, lines_with, rule_text};
ghost use Rattle.proof_documents.specs.DocumentText.{numbers_text};
ghost use Rattle.proof_documents.specs.DocumentText.{proof_line_text, document_text};
ghost use Rattle.proof_documents.specs.Text.{IsDocument};
ghost use Rattle.certificates.specs.Writing.{pair_behind, claimed_pair, added_of, deleted_of, document_of};
ghost use Rattle.certificates.specs.Writing.{IsSpellable, IsWritable, IsSpelledIfLawful, IsLawfulIfWritable};

use ntriples_io::write_triple;
use proof_lines::{Claim, Proof, ProofLine, RuleName};
use rdf_terms::{Bytes, OutOfMemory, Places, Triple};
use repair_problem::Problem;
use std::alloc::Global;

/// A space before each number.
fn push_numbers(alloc: Global, out: &mut Bytes, numbers: &[u64]) -> Result<(), OutOfMemory>
    ensures text { OnOk result (out.new ≡ out.old ++ numbers_text numbers.now) }
    ensures short { OnOk result (AreShort numbers.now) }
{
    'numbers: for number in numbers {
        let text = format!(in alloc; " {number}")?;
        out.append(text.as_bytes())?;
    }
    Ok(())
}

/// The name of a rule.
fn rule_name(name: RuleName) -> &'static str
    ensures { result.now ≡ rule_text name }
{
    match name {
        RuleName::Reach => "reach",
        RuleName::Level => "level",
        RuleName::Middle => "middle",
        RuleName::Good => "good",
        RuleName::Marked => "marked",
        RuleName::Count => "count",
        RuleName::Differ => "differ",
        RuleName::Twin => "twin",
        RuleName::Holds => "holds",
        RuleName::Conforms => "conforms",
        RuleName::Target => "target",
        RuleName::Root => "root",
        RuleName::Outside => "outside",
        RuleName::Undo => "undo",
    }
}

/// The text of a claim.
fn claim_name(claim: Claim) -> &'static str
    ensures { result.now ≡ claim_text claim }
{
    match claim {
        Claim::Pair => "claim pair",
        Claim::NoPair => "claim none",
        Claim::Spent => "claim spent",
    }
}

/// A line of a proof, without its LF.
fn push_proof_line(alloc: Global, out: &mut Bytes, line: &ProofLine) -> Result<(), OutOfMemory>
    ensures text { OnOk result (out.new ≡ out.old ++ proof_line_text line.now) }
    ensures lawful { OnOk result (IsLawfulIfWritable line.now) }
{
    match line {
        ProofLine::Chain(places) => {
            out.append(b"chain")?;
            push_numbers(alloc, out, places.as_slice())
        }
        ProofLine::Rule(rule) => {
            out.append(b"rule ")?;
            out.append(rule_name(rule.name).as_bytes())?;
            push_numbers(alloc, out, rule.numbers.as_slice())
        }
        ProofLine::Step(ids) => {
            out.append(b"step")?;
            push_numbers(alloc, out, ids.as_slice())
        }
    }
}

/// The lines of a proof.
fn push_proof_lines(alloc: Global, out: &mut Bytes, lines: &[ProofLine]) -> Result<(), OutOfMemory>
    ensures text { OnOk result (out.new ≡ out.old ++ flat_map (λ l. line_text_of (proof_line_text l)) lines.now) }
    ensures lawful { OnOk result (All IsLawfulIfWritable lines.now) }
{
    'lines: for line in lines {
        push_proof_line(alloc, out, line)?;
        out.append(b"\n")?;
    }
    Ok(())
}

/// The canonical line of a triple, with a prefix before it.
fn push_triple_line(
    alloc: Global,
    out: &mut Bytes,
    prefix: &str,
    triple: &Triple,
) -> Result<(), OutOfMemory>
    ensures text { OnOk result (out.new ≡ out.old ++ (prefix.now ++ line_text triple.now)) }
    ensures spelled { OnOk result (IsSpelledIfLawful triple.now) }
{
    out.append(prefix.as_bytes())?;
    let line = write_triple(alloc, triple)?;
    out.append(line.as_slice())?;
    Ok(())
}

/// The canonical line of each triple, with a prefix before it.
fn push_triple_lines(
    alloc: Global,
    out: &mut Bytes,
    prefix: &str,
    triples: &[Triple],
) -> Result<(), OutOfMemory>
    ensures text { OnOk result (out.new ≡ out.old ++ lines_with prefix.now triples.now) }
    ensures spelled { OnOk result (All IsSpelledIfLawful triples.now) }
{
    'triples: for triple in triples {
        push_triple_line(alloc, out, prefix, triple)?;
    }
    Ok(())
}

/// The pair of the last chain line, if there is one.
fn last_pair(lines: &[ProofLine]) -> Option<&Places>
    ensures { option_copied result ≡ pair_behind None lines.now }
{
    let mut last = None;
    'lines: for line in lines {
        if let ProofLine::Chain(pair) = line {
            last = Some(pair);
        }
    }
    last
}

/// The pair that is claimed, if one is.
fn pair_claimed(proof: &Proof) -> Option<&Places>
    ensures { option_copied result ≡ claimed_pair proof.now }
{
    match proof.claim {
        Claim::Pair => last_pair(proof.lines.as_slice()),
        Claim::NoPair | Claim::Spent => None,
    }
}

/// The lines of the triples of a claimed pair.
fn push_pair(
    alloc: Global,
    problem: &Problem,
    out: &mut Bytes,
    pair: &Places,
) -> Result<(), OutOfMemory>
    requires { AreCandidates problem.now pair.now }
    ensures text { OnOk result (out.new ≡ out.old ++ (lines_with (codes "add ") (added_of problem.now (Some pair.now))
        ++ lines_with (codes "delete ") (deleted_of problem.now (Some pair.now)))) }
    ensures added { OnOk result (All IsSpelledIfLawful (added_of problem.now (Some pair.now))) }
    ensures deleted { OnOk result (All IsSpelledIfLawful (deleted_of problem.now (Some pair.now))) }
{
    let added = problem.additions(alloc, pair)?;
    let deleted = problem.deletions(alloc, pair)?;
    push_triple_lines(alloc, out, "add ", added.as_slice())?;
    push_triple_lines(alloc, out, "delete ", deleted.as_slice())
}

/// The lines of the triples of the pair that a proof claims, if it claims one.
fn push_claimed(
    alloc: Global,
    problem: &Problem,
    out: &mut Bytes,
    proof: &Proof,
) -> Result<(), OutOfMemory>
    requires { IfSome (claimed_pair proof.now) (AreCandidates problem.now) }
    ensures text { OnOk result (out.new ≡ out.old
        ++ (lines_with (codes "add ") (added_of problem.now (claimed_pair proof.now))
        ++ lines_with (codes "delete ") (deleted_of problem.now (claimed_pair proof.now)))) }
    ensures added { OnOk result (All IsSpelledIfLawful (added_of problem.now (claimed_pair proof.now))) }
    ensures deleted { OnOk result (All IsSpelledIfLawful (deleted_of problem.now (claimed_pair proof.now))) }
{
    match pair_claimed(proof) {
        Some(pair) => push_pair(alloc, problem, out, pair),
        None => Ok(()),
    }
}

/// The text of the document of a proof. Where a pair is claimed, its triples are those of the last pair of the chain.
///
/// It is read back as that document where the terms of the data and the offers are lawful, their blank nodes are those
/// of the data, the numbers of each chain line ascend, and each step has at least two ids.
pub fn document_bytes(alloc: Global, problem: &Problem, proof: &Proof) -> Result<Bytes, OutOfMemory>
    requires { IfSome (claimed_pair proof.now) (AreCandidates problem.now) }
    ensures text { IfOk result (λ bytes. bytes ≡ document_text (document_of problem.now proof.now)) }
    // Read back, the text is exactly this document.
    ensures read_back { IsSpellable problem.now → All IsWritable proof.now.lines →
        IfOk result (λ bytes. IsDocument bytes (document_of problem.now proof.now)) }
{
    let mut out = Bytes::new(alloc);
    out.append(b"explanation 1\n")?;
    out.append(claim_name(proof.claim).as_bytes())?;
    out.append(b"\n")?;
    push_claimed(alloc, problem, &mut out, proof)?;
    push_proof_lines(alloc, &mut out, proof.lines.as_slice())?;
    out.append(b"end\n")?;
    Ok(out)
}
