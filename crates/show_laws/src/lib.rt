// That what is printed doesn't depend on the order of lists.
#![tactic(auto)]

ghost use Rattle.show_laws.specs.AnyOrder.{PrintAnyOrder};

// A phase of games alike, on boards drawn alike, with the same texts in any order, prints the same bytes.
pub fn print_any_order_stands()
    ensures { PrintAnyOrder }
{}
