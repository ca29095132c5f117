//! What holds of each order. There is nothing to run here.

ghost use Rattle.std.specs.Prelude.{List, ℕ};
ghost use Rattle.ob_tree.specs.declared.print.Print.{Print};
ghost use Rattle.ob_make.specs.Laws.{OrderStands, NeedsAreAll, OrdersAgree, FreshIsUpToDate};

/// A law, with nothing to run: in each order no module stands twice, the one that is made stands last, and
/// each need of a module stands before it.
pub fn order_stands()
    ensures files { OrderStands Print }
    ensures libraries { OrderStands (List ℕ) }
{}

/// A law, with nothing to run: a module is a need exactly where it stands among those of the object file, of
/// the symbol file or of the source, and is neither the module itself nor Out.
pub fn needs_are_all()
    ensures files { NeedsAreAll Print }
    ensures libraries { NeedsAreAll (List ℕ) }
{}

/// A law, with nothing to run: where each identifier has the same needs in files and in a library, and they
/// are identifiers, the order is the same.
pub fn orders_agree()
    ensures { OrdersAgree Print (List ℕ) }
{}

/// A law, with nothing to run: a check of a module that is not stale has nothing to say.
pub fn fresh_is_up_to_date()
    ensures { FreshIsUpToDate }
{}
