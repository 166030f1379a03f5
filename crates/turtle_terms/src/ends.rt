ghost use Rattle.std.specs.Prelude.{◌≡◌, [], true, false};
ghost use Rattle.std.specs.Str.{chars};

/// Whether nothing is left of a token.
pub fn is_end(rest: &str) -> bool
    ensures ends { result ≡ true → chars rest.now ≡ [] }
    ensures goes_on { result ≡ false → chars rest.now ≡ [] → ⊥ }
{
    rest.is_empty()
}
