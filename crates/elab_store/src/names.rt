// Texts that are compared.
ghost use Rattle.std.specs.Prelude.{◌≡◌, ◌↔◌, IsTrue};
ghost use Rattle.lists.specs.Texts.{text_eq};

/// Whether two texts are the same.
pub fn is_text(a: &str, b: &str) -> bool
    ensures { result ≡ text_eq a.now b.now }
{
    equals(a, b)
}

fn equals(a: &str, b: &str) -> bool
    ensures { IsTrue result ↔ (a.now ≡ b.now) }
{
    a == b
}
