ghost use Rattle.std.specs.Prelude.{◌≡◌, ◌≢◌, IfSome, IfNone};
ghost use Rattle.proof_lines.specs.declared.proof.Claim.{Claim as Claimed};
ghost use Rattle.proof_documents.specs.DocumentText.{claim_text};

use proof_lines::Claim;

const PAIR: &str = "claim pair";

const NO_PAIR: &str = "claim none";

const SPENT: &str = "claim spent";

/// The claim whose line these bytes are, without their LF.
pub fn parse_claim_line(text: &[u8]) -> Option<Claim>
    ensures found { IfSome result (λ claim. text.now ≡ claim_text claim) }
    ensures none { IfNone result ((claim : Claimed) → text.now ≢ claim_text claim) }
{
    if text == PAIR.as_bytes() {
        Some(Claim::Pair)
    } else if text == NO_PAIR.as_bytes() {
        Some(Claim::NoPair)
    } else if text == SPENT.as_bytes() {
        Some(Claim::Spent)
    } else {
        None
    }
}
