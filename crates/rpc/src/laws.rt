//! Laws of the definitions.

ghost use Rattle.std.specs.Prelude.{◌≡◌, ℕ, List, All, Some};
ghost use Rattle.serde_json.specs.Data.{Data};
ghost use Rattle.replies.specs.Ids.{Ident};
ghost use Rattle.rpc.specs.Messages.{Received, Request, Notification, accepted, request, notification};
ghost use Rattle.rpc.specs.Reading.{Receives, value_of};
ghost use Rattle.rpc.specs.Texts.{IsSpelled, texts_of};
ghost use Rattle.rpc.specs.Writing.{request_data, notification_data, IdFits, RequestFits, NotificationFits};
ghost use Rattle.rpc.specs.Written.{compact_text};

/// A content is read as one thing at most.
pub fn received_unique()
    ensures { (content : List ℕ) (a b : Received)
        → Receives content a → Receives content b → a ≡ b }
{}

/// A content is read as something.
pub fn received_exists()
    ensures { (content : List ℕ) → (received : Received) × Receives content received }
{}

/// Each id, URI and text in what is received is in UTF-8: its characters are Unicode scalar
/// values, and its bytes are theirs.
pub fn each_text_is_unicode()
    ensures { (content : List ℕ) (received : Received) → Receives content received →
        All IsSpelled (texts_of received) }
{}

/// What a client writes as the protocol says is read as what it says. The compact JSON text of
/// each request with its id, and of each notification, is read as that message, if its texts are
/// in UTF-8 and its numbers fit; and so is each content with the same JSON value, however it is
/// spaced, ordered and escaped.
pub fn written_messages_are_read()
    ensures requests { (id : Ident) (call : Request) → IdFits id → RequestFits call →
        All IsSpelled (texts_of (accepted (request id call))) →
        Receives (compact_text (request_data id call)) (accepted (request id call)) }
    ensures notifications { (language : List ℕ) (note : Notification) (value : Data) →
        notification_data language note ≡ Some value → NotificationFits note →
        IsSpelled language → All IsSpelled (texts_of (accepted (notification note))) →
        Receives (compact_text value) (accepted (notification note)) }
    ensures request_values { (id : Ident) (call : Request) → IdFits id → RequestFits call →
        (content : List ℕ) → value_of content ≡ Some (request_data id call) →
        Receives content (accepted (request id call)) }
    ensures notification_values { (language : List ℕ) (note : Notification) (value : Data) →
        notification_data language note ≡ Some value → NotificationFits note →
        (content : List ℕ) → value_of content ≡ Some value →
        Receives content (accepted (notification note)) }
{}
