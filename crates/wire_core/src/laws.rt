//! Laws of readings and of hashed strings. Nobody calls these functions: the contract of each states
//! a law.

ghost use Rattle.std.specs.Prelude.{◌≡◌, ◌<◌, ◌+◌, ◌^◌, ◌⊎◌, ◌++◌, ◌∷◌, [], ℕ, List, length, Contains};
ghost use Rattle.std.specs.Int.{w8, w16, w32, w64, to_be_bytes};
ghost use Rattle.wire_core.specs.declared.tag.Tag.{Tag};
ghost use Rattle.wire_core.specs.Bytes.{IsBytes};
ghost use Rattle.wire_core.specs.Hash.{ArePieces, Collides, hash_of, layer_seed, layer_seed_string, NoCollision, hashed};
ghost use Rattle.wire_core.specs.Reading.{Reading, Takes, bytes_at, number_at, reading_at};

/// What is appended is read again, whatever follows it.
pub fn reads_what_is_put()
    ensures one { (n place : ℕ) (more : List ℕ) → n < 2 ^ 8 →
        number_at w8 (reading_at place (n ∷ [] ++ more)) ≡ Ok (n, reading_at (place + 1) more) }
    ensures two { (n place : ℕ) (more : List ℕ) → n < 2 ^ 16 →
        number_at w16 (reading_at place (to_be_bytes w16 n ++ more)) ≡ Ok (n, reading_at (place + 2) more) }
    ensures four { (n place : ℕ) (more : List ℕ) → n < 2 ^ 32 →
        number_at w32 (reading_at place (to_be_bytes w32 n ++ more)) ≡ Ok (n, reading_at (place + 4) more) }
    ensures eight { (n place : ℕ) (more : List ℕ) → n < 2 ^ 64 →
        number_at w64 (reading_at place (to_be_bytes w64 n ++ more)) ≡ Ok (n, reading_at (place + 8) more) }
    ensures bytes { (text : List ℕ) (place : ℕ) (more : List ℕ) →
        bytes_at (length text) (reading_at place (text ++ more)) ≡ Ok (text, reading_at (place + length text) more) }
{}

/// What is read was spelled so, and nothing else was read.
pub fn reads_nothing_else()
    ensures one { (r : Reading) (x : ℕ × Reading) → IsBytes r.rest →
        number_at w8 r ≡ Ok x → Takes (x.0 ∷ []) r x.1 × (x.0 < 2 ^ 8) }
    ensures two { (r : Reading) (x : ℕ × Reading) → IsBytes r.rest →
        number_at w16 r ≡ Ok x → Takes (to_be_bytes w16 x.0) r x.1 × (x.0 < 2 ^ 16) }
    ensures four { (r : Reading) (x : ℕ × Reading) → IsBytes r.rest →
        number_at w32 r ≡ Ok x → Takes (to_be_bytes w32 x.0) r x.1 × (x.0 < 2 ^ 32) }
    ensures eight { (r : Reading) (x : ℕ × Reading) → IsBytes r.rest →
        number_at w64 r ≡ Ok x → Takes (to_be_bytes w64 x.0) r x.1 × (x.0 < 2 ^ 64) }
    ensures bytes { (n : ℕ) (r : Reading) (x : List ℕ × Reading) →
        bytes_at n r ≡ Ok x → Takes x.0 r x.1 × (length x.0 ≡ n) }
{}

/// A hashed string determines its tag and its list of pieces.
pub fn hashed_determines()
    ensures { (tag tag' : Tag) (pieces pieces' : List (List ℕ)) →
        ArePieces pieces → ArePieces pieces' →
        hashed tag pieces ≡ hashed tag' pieces' → (tag ≡ tag') × (pieces ≡ pieces') }
{}

/// Where no two strings of a list have one SHA-256, a hash of a string of the list determines its
/// tag and its list of pieces.
pub fn same_hash()
    ensures { (strings : List (List ℕ)) (tag tag' : Tag) (pieces pieces' : List (List ℕ)) →
        NoCollision strings →
        Contains strings (hashed tag pieces) → Contains strings (hashed tag' pieces') →
        ArePieces pieces → ArePieces pieces' →
        hash_of tag pieces ≡ hash_of tag' pieces' → (tag ≡ tag') × (pieces ≡ pieces') }
{}

/// Equal hashes have equal tags and pieces, or they are those of two different strings with one
/// SHA-256.
pub fn collide_or_same()
    ensures { (tag tag' : Tag) (pieces pieces' : List (List ℕ)) →
        ArePieces pieces → ArePieces pieces' →
        hash_of tag pieces ≡ hash_of tag' pieces' →
        ((tag ≡ tag') × (pieces ≡ pieces')) ⊎ Collides (hashed tag pieces) (hashed tag' pieces') }
{}

/// Where no two strings of a list have one SHA-256, the seed of a layer determines the opening of
/// 32 bytes, the round, the shuffle, the side, the member and the layer that it is of.
pub fn layer_seed_determines()
    ensures { (strings : List (List ℕ)) (opening opening' : List ℕ)
        (round round' shuffle shuffle' side side' member member' layer layer' : ℕ) →
        NoCollision strings →
        Contains strings (layer_seed_string opening round shuffle side member layer) →
        Contains strings (layer_seed_string opening' round' shuffle' side' member' layer') →
        length opening ≡ 32 → length opening' ≡ 32 → round < 2 ^ 64 → round' < 2 ^ 64 →
        layer_seed opening round shuffle side member layer
        ≡ layer_seed opening' round' shuffle' side' member' layer' →
        (opening ≡ opening') × (round ≡ round') × (shuffle ≡ shuffle') × (side ≡ side')
        × (member ≡ member') × (layer ≡ layer') }
{}

/// What holds of a list of strings holds of every list whose strings are in it.
pub fn no_collision_part()
    ensures { (part strings : List (List ℕ)) →
        ((s : List ℕ) → Contains part s → Contains strings s) →
        NoCollision strings → NoCollision part }
{}

/// A hash is 32 bytes.
pub fn hash_bytes()
    ensures { (tag : Tag) (pieces : List (List ℕ)) →
        (length (hash_of tag pieces) ≡ 32) × IsBytes (hash_of tag pieces) }
{}
