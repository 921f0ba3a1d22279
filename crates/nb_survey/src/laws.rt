//! Laws of the definitions that the contracts cite. Each is proved; a call does nothing.
ghost use Rattle.std.specs.Prelude.{◌≡◌, ℕ, [], ◌∷◌, ◌++◌, List, Bool, Option, Some, None, true, false, codes, map, option_map, replicate};
ghost use Rattle.nb_names.specs.FirstLevel.{letters};
ghost use Rattle.nb_service.specs.Record.{of_bytes, ResourceRecord};
ghost use Rattle.nb_survey.specs.Examples.{fred, IsFrom, IsPlain, IsSent, query, seven, eight};
ghost use Rattle.nb_survey.specs.Hearing.{operation_of, own_entries, scope_of};
ghost use Rattle.nb_survey.specs.Queries.{is_for, queries_of, step};
ghost use Rattle.nb_survey.specs.QueryRows as found_nothing;
ghost use Rattle.nb_survey.specs.Rows.{is_marked, IsWitnessed, latest_of, packets, row_of, stands};
ghost use Rattle.nb_survey.specs.Sayings.{is_wildcard, listed_word, said_at, sayings};
ghost use Rattle.nb_survey.specs.Telling.{mentions, words_of};
ghost use Rattle.nb_survey.specs.Words.{asking_of, is_own, word_of};
ghost use Rattle.nb_survey.specs.declared.heard.Heard.{Heard};
ghost use Rattle.nb_survey.specs.declared.heard.Said.{Said};
ghost use Rattle.nb_survey.specs.declared.row.Half.{Half};
ghost use Rattle.nb_survey.specs.declared.query.Outcome.TheVariants.{Late, OfAnother, Refused as RefusedQuery};
ghost use Rattle.nb_survey.specs.declared.word.Asking.{Asking};
ghost use Rattle.nb_survey.specs.declared.word.Word.{Word};
ghost use Rattle.nb_survey.specs.declared.word.Word.TheVariants.{Claims, Refreshes, Takes, GivesUp, Granted, AsksHolder, ToldOfConflict, Refused, ToWait, Released, NotReleased, Answers, SaidToHaveIt, Lists, ListsInConflict, ListsInactive};

/// The words of flag words, as RFC 1002 draws them: requests of operation 5 with RD and without, of
/// 15, 8, 9 and 6; responses to a claim with RA, without, and of RCODE 7 and 6; responses to a
/// release, a wait acknowledgement; a query and its response, which have none.
pub fn words()
    ensures claims { (word_of 10512 ≡ Some Claims) × (word_of 30992 ≡ Some Claims) }
    ensures takes { word_of 10256 ≡ Some Takes }
    ensures refreshes { (word_of 16656 ≡ Some Refreshes) × (word_of 18448 ≡ Some Refreshes) }
    ensures gives_up { word_of 12304 ≡ Some GivesUp }
    ensures granted { (word_of 44416 ≡ Some Granted) × (word_of 44288 ≡ Some AsksHolder) }
    ensures refused { (word_of 44423 ≡ Some ToldOfConflict) × (word_of 44422 ≡ Some (Refused 6)) }
    ensures released { (word_of 46080 ≡ Some Released) × (word_of 46086 ≡ Some (NotReleased 6)) }
    ensures waits { word_of 48128 ≡ Some ToWait }
    ensures queries { (word_of 272 ≡ None) × (word_of 34176 ≡ None) }
    ensures lists { (listed_word 1024 ≡ Lists) × (listed_word 3072 ≡ ListsInConflict)
        × (listed_word 33280 ≡ ListsInactive) }
{}

/// Who asks for a name says so itself.
pub fn requests_are_own()
    ensures { (word : Word) (asking : Asking) → asking_of word ≡ Some asking →
        is_own word ≡ true }
{}

/// The wildcard is `*` and fifteen zero bytes, or `*`, fourteen spaces and a zero byte.
pub fn wildcards()
    ensures zeros { (scope : List (List ℕ)) →
        is_wildcard (letters (42 ∷ replicate 15 0) ∷ scope) ≡ true }
    ensures spaces { (scope : List (List ℕ)) → is_wildcard
        (letters (42 ∷ 32 ∷ 32 ∷ 32 ∷ 32 ∷ 32 ∷ 32 ∷ 32 ∷ 32 ∷ 32 ∷ 32 ∷ 32 ∷ 32 ∷ 32 ∷ 32 ∷ 0 ∷ [])
        ∷ scope) ≡ true }
    ensures others { is_wildcard fred ≡ false }
{}

/// Four packets about `FRED`, from 10.0.0.7 to 10.0.0.8: an answer with both addresses, the second
/// a group's; a claim without a record, which is about its sender; a refusal, which is about where
/// it goes; and a grant, which is about the address in its record.
pub fn packets()
    ensures answer { (heard : Heard) → IsFrom heard 34176
        (record { flags = 24576; address = 10 ∷ 0 ∷ 0 ∷ 7 ∷ [] }
        ∷ record { flags = 57344; address = 10 ∷ 0 ∷ 0 ∷ 8 ∷ [] } ∷ []) →
        sayings heard ≡ said_at heard fred seven Answers (Some false)
        ∷ said_at heard fred eight SaidToHaveIt (Some true) ∷ [] }
    ensures claim { (heard : Heard) → IsFrom heard 10512 [] →
        sayings heard ≡ said_at heard fred seven Claims None ∷ [] }
    ensures refusal { (heard : Heard) → IsFrom heard 44422
        (record { flags = 24576; address = 10 ∷ 0 ∷ 0 ∷ 7 ∷ [] } ∷ []) →
        sayings heard ≡ said_at heard fred eight (Refused 6) None ∷ [] }
    ensures grant { (heard : Heard) → IsFrom heard 44416
        (record { flags = 57344; address = 10 ∷ 0 ∷ 0 ∷ 7 ∷ [] } ∷ []) →
        sayings heard ≡ said_at heard fred seven Granted (Some true) ∷ [] }
{}

/// What records have: the NB entries of one of its name, in order, and none of another's; names of
/// a node status in the scope of its RR_NAME; the operation of a release in the RDATA of a wait
/// acknowledgement.
pub fn records()
    ensures entries { (entry : ResourceRecord) → entry.name ≡ fred → entry.kind ≡ 32 →
        entry.rdata ≡ of_bytes (96 ∷ 0 ∷ 10 ∷ 0 ∷ 0 ∷ 7 ∷ 224 ∷ 0 ∷ 10 ∷ 0 ∷ 0 ∷ 8 ∷ []) →
        own_entries (Some fred) entry ≡ record { flags = 24576; address = 10 ∷ 0 ∷ 0 ∷ 7 ∷ [] }
        ∷ record { flags = 57344; address = 10 ∷ 0 ∷ 0 ∷ 8 ∷ [] } ∷ [] }
    ensures others { (entry : ResourceRecord) → entry.name ≡ fred ++ codes "NET" ∷ [] →
        own_entries (Some fred) entry ≡ [] }
    ensures scopes { (scope_of (fred ++ codes "NET" ∷ []) ≡ codes "NET" ∷ [])
        × (scope_of (codes "NET" ∷ []) ≡ []) }
    ensures waits { operation_of (of_bytes (48 ∷ 16 ∷ [])) ≡ Some 6 }
{}

/// How many packets have a word, by the frames of words, and what a claim and its refusal make of a
/// row: one of each, and the latter is the later one.
pub fn rows()
    ensures counts { packets (1 ∷ 1 ∷ 2 ∷ 1 ∷ 3 ∷ []) ≡ 4 }
    ensures refused { (claim refusal : Said) → claim.word ≡ Claims → refusal.word ≡ Refused 6 →
        let row = row_of (claim ∷ refusal ∷ []) in
        (option_map (λ row. row.is_own_later) row ≡ Some false)
        × (option_map (λ row. row.claims.packets) row ≡ Some 1)
        × (option_map (λ row. row.refusals.packets) row ≡ Some 1) }
    ensures marked { (claim refusal : Said) → claim.word ≡ Claims → refusal.word ≡ Refused 6 →
        option_map is_marked (row_of (claim ∷ refusal ∷ [])) ≡ Some true }
    ensures stands { (release claim : Said) → release.word ≡ GivesUp → claim.word ≡ Refreshes →
        option_map stands (row_of (release ∷ claim ∷ [])) ≡ Some true }
{}

/// A grant without a record, from 10.0.0.8 to 10.0.0.7, is about the address whose latest claim has
/// its identifier, 10.0.0.7; it says nothing where none has.
pub fn responses()
    ensures granted { (claim grant : Heard) → IsPlain claim 10512 seven eight 1 →
        IsPlain grant 44416 eight seven 1 →
        map (λ s. s.word) (words_of fred (claim ∷ grant ∷ [])) ≡ Claims ∷ Granted ∷ [] }
    ensures to { (claim grant : Heard) → IsPlain claim 10512 seven eight 1 →
        IsPlain grant 44416 eight seven 1 →
        map (λ s. s.place.address) (words_of fred (claim ∷ grant ∷ [])) ≡ seven ∷ seven ∷ [] }
    ensures other { (claim grant : Heard) → IsPlain claim 10512 seven eight 1 →
        IsPlain grant 44416 eight seven 2 →
        map (λ s. s.word) (words_of fred (claim ∷ grant ∷ [])) ≡ Claims ∷ [] }
{}

/// What a row has is a word's of those that it is made of: halves, MACs, whether the name is a
/// group's, and lifetimes.
pub fn witnessed()
    ensures halves { (f : Said → Option Half) (said : List Said) (value : Half) →
        latest_of f said ≡ Some value → IsWitnessed f said value }
    ensures macs { (f : Said → Option (List ℕ)) (said : List Said) (value : List ℕ) →
        latest_of f said ≡ Some value → IsWitnessed f said value }
    ensures groups { (f : Said → Option Bool) (said : List Said) (value : Bool) →
        latest_of f said ≡ Some value → IsWitnessed f said value }
    ensures lifetimes { (f : Said → Option ℕ) (said : List Said) (value : ℕ) →
        latest_of f said ≡ Some value → IsWitnessed f said value }
{}

/// What packets are to a query of 10.0.0.7 to 10.0.0.8: the same packet 10 s later is a repeat, and
/// one later than that another query, as is one after a response that belongs; a response of
/// 10.0.0.8 within 10 s answers it, or says why not; one later is late; one of another station
/// answers only what was sent to a group.
pub fn queries()
    ensures repeats { (heard : Heard) → IsSent heard 256 seven eight 10000000000 →
        map (λ q. q.packets) (step (query ∷ []) heard) ≡ 2 ∷ [] }
    ensures begins { (heard : Heard) → IsSent heard 256 seven eight 10000000001 →
        map (λ q. q.packets) (step (query ∷ []) heard) ≡ 1 ∷ 1 ∷ [] }
    ensures crosses { (heard : Heard) → IsSent heard 256 seven eight 1 →
        map (λ q. q.is_over) (step (record query { is_closed = true } ∷ []) heard)
        ≡ true ∷ false ∷ [] }
    ensures answers { (heard : Heard) → IsSent heard 34176 eight seven 10000000000 →
        map (λ q. q.is_answered) (step (query ∷ []) heard) ≡ true ∷ [] }
    ensures refuses { (heard : Heard) → IsSent heard 34179 eight seven 10000000000 →
        map (λ q. q.reply) (step (query ∷ []) heard)
        ≡ Some (record { outcome = RefusedQuery 3; by = eight; frame = 2 }) ∷ [] }
    ensures late { (heard : Heard) → IsSent heard 34176 eight seven 10000000001 →
        map (λ q. q.reply) (step (query ∷ []) heard)
        ≡ Some (record { outcome = Late 10000000001; by = eight; frame = 2 }) ∷ [] }
    ensures another { (heard : Heard) → IsSent heard 34176 seven seven 1 →
        map (λ q. q.reply) (step (query ∷ []) heard)
        ≡ Some (record { outcome = OfAnother; by = seven; frame = 2 }) ∷ [] }
    ensures group { (heard : Heard) → IsSent heard 34176 seven seven 1 →
        map (λ q. q.is_answered) (step (record query { is_to_group = true } ∷ []) heard)
        ≡ true ∷ [] }
    ensures sender { (heard : Heard) → IsSent heard 34176 eight seven 1 →
        map (λ q. q.is_answered)
        (step (query ∷ record query { station = seven; is_to_group = true } ∷ []) heard)
        ≡ true ∷ false ∷ [] }
{}

/// Queries that all have positive responses have no row; of one that failed a later one that is
/// answered counts no packets.
pub fn rows_of_queries()
    ensures answered { found_nothing.row_of query (record query { is_answered = true } ∷ [])
        ≡ None }
    ensures later { option_map (λ row. row.packets)
        (found_nothing.row_of query (query ∷ record query { is_answered = true } ∷ []))
        ≡ Some 1 }
    ensures others { found_nothing.row_of query (record query { kind = Some 33 } ∷ []) ≡ None }
{}

/// A packet that is about another name, and doesn't list this one, changes no word that is said of
/// this one, and so no row, wherever it stands; one that is about another name changes no query.
#[tactic(auto, using(crate::proofs::TellLemmas::silent, crate::proofs::TellLemmas::queries_silent))]
pub fn others_change_nothing()
    ensures words { (name : List (List ℕ)) (before later : List Heard) (other : Heard) →
        mentions name other ≡ false →
        words_of name (before ++ other ∷ later) ≡ words_of name (before ++ later) }
    ensures queries { (name : List (List ℕ)) (before later : List Heard) (other : Heard) →
        is_for name other ≡ false →
        queries_of name (before ++ other ∷ later) ≡ queries_of name (before ++ later) }
{}
