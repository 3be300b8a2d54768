// The laws of the values, as theorems: the check asks for their proof because a contract names them.
ghost use Rattle.values.specs.Laws.{TriLaws, SpanLaws};

pub fn tri_laws_stand()
    ensures { TriLaws }
{}

pub fn span_laws_stand()
    ensures { SpanLaws }
{}
