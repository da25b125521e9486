//! Laws of the definitions that this crate's contracts cite.

ghost use Rattle.std.specs.Prelude.{◌≡◌, ◌++◌, ◌<◌, ◌^◌, List, ℕ, [], take, All, if◌then◌else◌};
ghost use Rattle.std.specs.List.{flat_map, fold, concat};
ghost use Rattle.kp_frames.specs.declared.api.Api.{Api};
ghost use Rattle.kp_frames.specs.declared.request.Request.{Request};
ghost use Rattle.kp_frames.specs.declared.response.Response.{Response};
ghost use Rattle.kp_frames.specs.Request as request;
ghost use Rattle.kp_frames.specs.Response as response;
ghost use Rattle.kp_frames.specs.Stream.{Split, Splits, frame, stream, is_faulty, kept};
ghost use Rattle.kp_frames.specs.Life.{Event, Lives, Lived, taken};

/// A request has at most one spelling, a spelling is that of one request, and none is a proper prefix of another.
pub fn request_has_one_spelling()
    ensures { (a b : Request) (x y rest : List ℕ) → request.Spells x a → request.Spells y b → y ≡ x ++ rest
        → (a ≡ b) × (rest ≡ []) }
{}

/// The same of the responses of one api.
pub fn response_has_one_spelling()
    ensures { (api : Api) (a b : Response) (x y rest : List ℕ) → response.Spells api x a → response.Spells api y b
        → y ≡ x ++ rest → (a ≡ b) × (rest ≡ []) }
{}

/// Bytes are the frames that are found in them, one after the other, and a rest in which there is no whole frame.
pub fn bytes_are_frames_and_a_rest()
    ensures { (bytes : List ℕ) → All (λ byte. byte < 2 ^ 8) bytes → Splits bytes (stream bytes) }
{}

/// There is no other way to split bytes into frames and such a rest.
pub fn bytes_are_split_in_one_way()
    ensures { (bytes : List ℕ) (s : Split) → Splits bytes s → s ≡ stream bytes }
{}

/// What is kept of bytes is all of their frames, and of a rest that begins with the size of no frame this size alone.
pub fn frames_are_kept()
    ensures { (bytes : List ℕ) → All (λ byte. byte < 2 ^ 8) bytes → let s = stream bytes in
        kept bytes ≡ flat_map frame.spell s.frames ++ (if is_faulty bytes then take 4 s.rest else s.rest) }
{}

/// The bytes that are kept have the same frames, and are faulty where the bytes are.
pub fn kept_bytes_have_the_same_frames()
    ensures { (bytes : List ℕ) → ((stream (kept bytes)).frames ≡ (stream bytes).frames)
        × (is_faulty (kept bytes) ≡ is_faulty bytes) }
{}

/// However a stream is cut into pieces, the same is held once they are fed.
pub fn pieces_are_held_as_their_stream()
    ensures { (pieces : List (List ℕ)) →
        fold (λ held piece. kept (held ++ piece)) [] pieces ≡ kept (concat pieces) }
{}

/// However a stream is cut into pieces, and whenever frames are asked for, the frames given and those still held are
/// those of the stream, and it is found faulty where it is.
pub fn frames_given_are_those_of_the_stream()
    ensures { (events : List Event) (after : List ℕ) → All (λ byte. byte < 2 ^ 8) (taken events) →
        Lives [] events after → Lived events after }
{}
