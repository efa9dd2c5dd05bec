// The laws of the grammar, for the crates above to cite. Each is brought in by a call, which does nothing.
ghost use Rattle.rpc_pdu.specs.Laws.{IsStable, IsExact, AreReadBack, AllDivideOnce};

/// What is decided of a stream stays, however it goes on.
pub fn front_is_stable()
    ensures { IsStable }
{}

/// A whole PDU at the beginning of a stream is exactly a PDU of the grammar.
pub fn whole_is_exactly_a_pdu()
    ensures { IsExact }
{}

/// What is written is read back by the side that reads its type, whatever follows it.
pub fn written_is_read_back()
    ensures { AreReadBack }
{}

/// A list of bytes is in one way a list of whole PDUs, followed by the beginning of one or by a refusal.
pub fn bytes_divide_once()
    ensures { AllDivideOnce }
{}
