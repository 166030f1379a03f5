use proof_lines::Proof;
use rdf_terms::Triples;
use std::marker::Model;

/// A document: the triples that a claimed pair adds and deletes, and the claim with its proof.
/// Contracts see it as a `Document`. It has fewer than 2^63 triples.
#[derive(Drop)]
pub struct DocumentText {
    pub adds: Triples,
    pub deletes: Triples,
    pub proof: Proof,
}

impl Model for DocumentText {
    ghost use Rattle.std.specs.Prelude.{◌+◌, ◌<◌, ◌^◌, length};
    ghost use Rattle.proof_documents.specs.Document.{Document};

    ghost Value = { Document };

    ghost view = { λ d. record { adds = d.adds; deletes = d.deletes; proof = d.proof } };

    ghost invariant = { λ d. length d.adds + length d.deletes < 2 ^ 63 };
}
