// What a whole PDU says.
use crate::syntaxes::Syntax;
use acct_base::Seq;

/// The side of a connection that reads.
#[derive(Clone, Copy, Debug, PartialEq, Eq)]
pub enum Side {
    /// Reads request, bind, alter_context, co_cancel and orphaned.
    Server,
    /// Reads response, fault, bind_ack, bind_nak and alter_context_resp.
    Client,
}

/// A presentation context that is offered (`p_cont_elem_t`).
#[derive(Debug, Drop)]
pub struct Element {
    /// The context id that requests on it will carry.
    pub context: u16,
    /// The abstract syntax, which is the interface.
    pub subject: Syntax,
    /// The transfer syntaxes that the client can use, at most 255.
    pub transfers: Seq<Syntax>,
}

/// The answer to one offered presentation context (`p_result_t`).
#[derive(Clone, Copy, Debug)]
pub struct Outcome {
    /// 0 for acceptance, 2 for a rejection by the provider.
    pub result: u16,
    /// The reason of a rejection, 0 where there is none.
    pub reason: u16,
    /// The transfer syntax that was chosen, all zero where none was.
    pub syntax: Syntax,
}

/// A PDU, by the fields that are kept of it (C706, section 12.6.4). `id` is the call id.
#[derive(Debug, Drop)]
pub enum Pdu {
    /// Type 11. `xmit` and `recv` are the largest fragments that the client sends and takes, in bytes; `group` is the
    /// association group, 0 for a new one.
    Bind {
        id: u32,
        xmit: u16,
        recv: u16,
        group: u32,
        elements: Seq<Element>,
    },
    /// Type 14, alter_context.
    Alter {
        id: u32,
        xmit: u16,
        recv: u16,
        group: u32,
        elements: Seq<Element>,
    },
    /// Type 0. Of the flags, 0x01 marks a call's first fragment, 0x02 its last, and 0x80 an object UUID before the
    /// stub, which is read and dropped.
    Request {
        id: u32,
        flags: u8,
        context: u16,
        opnum: u16,
        stub: Seq<u8>,
    },
    /// Type 18, co_cancel.
    Cancel {
        id: u32,
    },
    /// Type 19.
    Orphaned {
        id: u32,
    },
    /// Type 12.
    BindAck {
        id: u32,
        xmit: u16,
        recv: u16,
        group: u32,
        outcomes: Seq<Outcome>,
    },
    /// Type 15, alter_context_resp.
    AlterResp {
        id: u32,
        xmit: u16,
        recv: u16,
        group: u32,
        outcomes: Seq<Outcome>,
    },
    /// Type 13.
    BindNak {
        id: u32,
        reason: u16,
    },
    /// Type 2. `hint` is the number of stub bytes from this fragment on, as the server says it.
    Response {
        id: u32,
        flags: u8,
        context: u16,
        hint: u32,
        stub: Seq<u8>,
    },
    /// Type 3.
    Fault {
        id: u32,
        context: u16,
        status: u32,
    },
}
