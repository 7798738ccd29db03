// Sealed files of pages.
/// A sealed file of pages of 4,096 bytes, which never changes.
pub trait PageFile: Drop {
    ghost use Rattle.std.specs.Prelude.{Bool, List, ℕ};

    /// Whether files of this type tell what they hold: one fact of the type.
    ghost tells: { Bool };

    /// The pages, in order from page 0; they mean something only where the type tells.
    ghost pages: { Self → List (List ℕ) };
}
