//! The pragmas and aspects that have effect (2.8, 13.1.1).

ghost use Rattle.std.specs.Prelude.{◌≡◌};
ghost use Rattle.rv_scope.specs.DeclarationUses.{is_priority as is_priority_name, is_attachment as is_attachment_name};

use rv_text::is_same_name;

/// Whether a pragma or an aspect of this name gives a priority (D.1, D.3).
pub fn is_priority(name: &str) -> bool
    ensures { result ≡ is_priority_name name.now }
{
    is_same_name(name, "Priority") || is_same_name(name, "Interrupt_Priority")
}

/// Whether it attaches a procedure to a line (C.3.1).
pub fn is_attachment(name: &str) -> bool
    ensures { result ≡ is_attachment_name name.now }
{
    is_same_name(name, "Attach_Handler")
}
