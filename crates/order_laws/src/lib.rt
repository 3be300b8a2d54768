// That no order of lists matters: of edges, of units and texts, of those dislodged and barred regions.
#![tactic(auto)]

ghost use Rattle.order_laws.specs.Edges.{AnyDrawing};
ghost use Rattle.order_laws.specs.Deciding.{AnyOrderOfOrders};
ghost use Rattle.order_laws.specs.Turns.{AnyOrderByRegion, AlikeStand, AnyOrder, AnyOrderOfMany};

// However edges are drawn, they join the same regions.
pub fn any_drawing_stands()
    ensures { AnyDrawing }
{}

// Orders in any order have one outcome, and the same is told of each unit.
pub fn any_order_of_orders_stands()
    ensures { AnyOrderOfOrders }
{}

// Told in the order of regions, lists in any order are equal.
pub fn any_order_by_region_stands()
    ensures { AnyOrderByRegion }
{}

// Of two games alike both are lawful, and they are told alike.
pub fn alike_stands()
    ensures { AlikeStand }
{}

// A phase in any order of units, texts, those dislodged, barred regions and edges leads to the same game and tells the same.
pub fn any_order_stands()
    ensures { AnyOrder }
{}

// The same over any number of phases.
pub fn any_order_of_many_stands()
    ensures { AnyOrderOfMany }
{}
