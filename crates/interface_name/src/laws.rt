//! Laws over the definitions alone. Each is the contract of a function that does nothing.
ghost use Rattle.std.specs.Prelude.{◌≡◌, ◌↔◌, ℕ, List};
ghost use Rattle.interface_name.specs.Name.{IsInterfaceName, IsName, name_text};
ghost use Rattle.interface_name.specs.declared.name.InterfaceName.{InterfaceName};

/// A text spells one name at most, and a name has one text.
pub fn one_name()
    ensures name { (text : List ℕ) (m n : InterfaceName) → IsName text m → IsName text n → m ≡ n }
    ensures text { (x y : List ℕ) (n : InterfaceName) → IsName x n → IsName y n → x ≡ y }
{}

/// What `Display` writes of a name spells that name, and no other.
pub fn name_read_again()
    ensures { (m n : InterfaceName) → IsInterfaceName m → (IsName (name_text m) n ↔ (n ≡ m)) }
{}
