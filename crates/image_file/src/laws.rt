// Laws of the grammar of image files.
ghost use Rattle.std.specs.Prelude.{◌≡◌, ◌↔◌, ◌≤◌, ◌++◌, [], ℕ, List};
ghost use Rattle.image_file.specs.ImageGrammar.{IsImageFile, IsFirstWrong};
ghost use Rattle.image_file.specs.Image.{Image, IsImage};
ghost use Rattle.image_file.specs.Spelling.{spelling};

/// Each image has just one file, its spelling; each file is that of one image; and no file is a
/// proper prefix of another.
pub fn law_of_spellings()
    ensures spelled { (i : Image) (bytes : List ℕ) → IsImageFile i bytes ↔ (IsImage i × (bytes ≡ spelling i)) }
    ensures one_image { (i j : Image) (bytes : List ℕ) → IsImageFile i bytes → IsImageFile j bytes → i ≡ j }
    ensures no_prefix { (i j : Image) (bytes more : List ℕ) → IsImageFile i bytes → IsImageFile j (bytes ++ more)
        → more ≡ [] }
{}

/// Bytes that are no file have one first part that differs or is cut short, of the twelve.
pub fn law_of_first_parts()
    ensures number { (k : ℕ) (bytes : List ℕ) → IsFirstWrong k bytes → (1 ≤ k) × (k ≤ 12) }
    ensures one_part { (k m : ℕ) (bytes : List ℕ) → IsFirstWrong k bytes → IsFirstWrong m bytes → k ≡ m }
    ensures no_image { (k : ℕ) (i : Image) (bytes : List ℕ) → IsFirstWrong k bytes → ¬ IsImageFile i bytes }
{}
