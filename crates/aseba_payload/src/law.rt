ghost use Rattle.std.specs.Prelude.{◌≡◌, ◌<◌, ◌≢◌, ◌⊎◌, ℕ, List as Items, length, slice_index, Some, None};
ghost use Rattle.aseba_message.specs.Message.{Message};
ghost use Rattle.aseba_tree.specs.declared.description.Native.{Native};
ghost use Rattle.aseba_tree.specs.Inside.{native_message_len};
ghost use Rattle.aseba_payload.specs.declared.payload.Payload.{Payload};
ghost use Rattle.aseba_payload.specs.declared.error.PayloadError.{PayloadError};
ghost use Rattle.aseba_payload.specs.Rows.{IsPayload, bytes_of};
ghost use Rattle.aseba_payload.specs.Decoding.{Says, Tells};
ghost use Rattle.aseba_payload.specs.Meaning.{payload_of};

/// The bytes of a frame of some type say one payload, or else one thing is wrong with them, and
/// never both. So no bytes are those of two payloads of a type, and what was written is read.
pub fn one_meaning()
    ensures some { (kind : ℕ) (bytes : Items ℕ) → ((i : ℕ) → slice_index bytes i < 256)
        → ((p : Payload) × IsPayload p × Says kind bytes p) ⊎ ((e : PayloadError) × (e ≢ PayloadError.Mem) × Tells kind bytes e) }
    ensures one_payload { (kind : ℕ) (bytes : Items ℕ) (p q : Payload) → IsPayload p → IsPayload q
        → Says kind bytes p → Says kind bytes q → p ≡ q }
    ensures one_fault { (kind : ℕ) (bytes : Items ℕ) (e f : PayloadError) → e ≢ PayloadError.Mem → f ≢ PayloadError.Mem
        → Tells kind bytes e → Tells kind bytes f → e ≡ f }
    ensures never_both { (kind : ℕ) (bytes : Items ℕ) (p : Payload) (e : PayloadError) → IsPayload p → e ≢ PayloadError.Mem
        → Says kind bytes p → Tells kind bytes e → ⊥ }
{}

/// The message of a native is as long as the limits of descriptions say, so that a native which
/// keeps to them can be told of.
pub fn native_length()
    ensures { (n : Native) → length (bytes_of (Payload.NativeOf n.name n.text n.params)) ≡ native_message_len n }
{}

/// The payload of a message is the one that it says. It has none exactly where something is wrong
/// with its bytes.
pub fn payload_is_said()
    ensures said { (m : Message) (p : Payload) → IsPayload p → Says m.kind m.payload p → payload_of m ≡ Some p }
    ensures only { (m : Message) (p : Payload) → ((i : ℕ) → slice_index m.payload i < 256)
        → payload_of m ≡ Some p → IsPayload p × Says m.kind m.payload p }
    ensures none { (m : Message) (e : PayloadError) → e ≢ PayloadError.Mem → Tells m.kind m.payload e → payload_of m ≡ None }
    ensures wrong { (m : Message) → ((i : ℕ) → slice_index m.payload i < 256) → payload_of m ≡ None
        → (e : PayloadError) × (e ≢ PayloadError.Mem) × Tells m.kind m.payload e }
{}
