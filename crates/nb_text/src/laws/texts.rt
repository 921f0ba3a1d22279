//! Laws of texts as they stand: an example of each form, written out.
ghost use Rattle.std.specs.Prelude.{◌≡◌, [], ◌∷◌, ◌++◌, codes};
ghost use Rattle.nb_service.specs.Record.{of_bytes, of_domain, record_of};
ghost use Rattle.nb_session.specs.declared.packet.Packet.TheVariants as sessions;
ghost use Rattle.nb_session.specs.declared.parsing.Parsed.TheVariants.{More, Refused, Whole};
ghost use Rattle.nb_session.specs.declared.fault.SessionFault.TheVariants.{TrailingBytes};
ghost use Rattle.nb_datagram.specs.declared.key.Kind.TheVariants.{Broadcast, Group, Unique};
ghost use Rattle.nb_datagram.specs.declared.packet.Packet.TheVariants.{Direct, Error, Query};
ghost use Rattle.nb_datagram.specs.declared.packet.QueryKind.TheVariants.{Request};
ghost use Rattle.nb_datagram.specs.FaultTexts.{kind_text};
ghost use Rattle.nb_text.specs.DatagramText.{datagram_text};
ghost use Rattle.nb_text.specs.Lines.{line_end};
ghost use Rattle.nb_text.specs.ServiceText.{header_line, question_line, record_line, record_lines};
ghost use Rattle.nb_text.specs.SessionText.{session_text};
ghost use Rattle.nb_text.specs.Views.{node_name_line, unit_line};

/// Lines of packets of port 137: a header, a question, a record with an address, one of a node's
/// names, its unit, and a record of a name server.
pub fn lines_of_names()
    ensures header { header_line (record {
      id = 1;
      word = 34176;
      questions = 1;
      answers = 2;
      authorities = 3;
      additional = 4;
    }) 62 ≡ codes "id=0001 word=8580 op=query flags=AA+RD+RA rcode=ok qd=1 an=2 ns=3 ar=4 used=62"
        ++ line_end }
    ensures question { question_line (record {
      name = codes "EGFCEFEECACACACACACACACACACACACA" ∷ [];
      kind = 33;
      class = 1;
    }) ≡ codes "  question FRED<20> type=0021 class=0001" ++ line_end }
    ensures address { record_lines (codes "answer") (record_of
        (codes "EGFCEFEECACACACACACACACACACACACA" ∷ []) 32 1 300000
        (of_bytes (96 ∷ 0 ∷ 10 ∷ 1 ∷ 2 ∷ 5 ∷ [])))
        ≡ codes "  answer FRED<20> type=0020 class=0001 ttl=300000 data=60000a010205" ++ (line_end
        ++ (codes "    entry flags=6000 ont=3 address=10.1.2.5" ++ line_end)) }
    ensures node { node_name_line (record { bytes = codes "FRED            "; flags = 33792 })
        ≡ codes "    name FRED<20> flags=8400 ont=0 set=G+ACT" ++ line_end }
    ensures unit { unit_line (1 ∷ 35 ∷ 69 ∷ 103 ∷ 137 ∷ 171 ∷ 205 ∷ [])
        ≡ codes "    unit=0123456789ab" ++ line_end }
    ensures server { record_line (codes "authority") (record_of (codes "ab" ∷ []) 2 1 60
        (of_domain (codes "ns" ∷ codes "example" ∷ [])))
        ≡ codes "  authority ab type=0002 class=0001 ttl=60 domain=ns.example" ++ line_end }
{}

/// Lines of packets of port 138: a datagram, an error and a query. What they begin with says which
/// they are: of a datagram its kind, of a query what `words_for_numbers` has.
pub fn lines_of_datagrams()
    ensures datagram { datagram_text (Direct (record {
      kind = Unique;
      flags = 2;
      key = record { ip = 10 ∷ 1 ∷ 2 ∷ 5 ∷ []; port = 138; id = 258 };
      offset = 7;
      source = record { bytes = codes "JOE             "; scope = [] };
      destination = record { bytes = codes "FRED            "; scope = codes "NETBIOS" ∷ [] };
      bytes = codes "abc";
    })) 93 ≡ codes "unique flags=02 key=10.1.2.5:138/0102 offset=7 source=JOE<20> "
        ++ (codes "destination=FRED<20>.NETBIOS data=616263 used=93" ++ line_end) }
    ensures kinds { (kind_text Unique ≡ codes "unique") × (kind_text Group ≡ codes "group")
        × (kind_text Broadcast ≡ codes "broadcast") }
    ensures error { datagram_text (Error (record {
      flags = 2;
      key = record { ip = 10 ∷ 1 ∷ 2 ∷ 5 ∷ []; port = 138; id = 258 };
      code = 130;
    })) 11 ≡ codes "error flags=02 key=10.1.2.5:138/0102 code=82 used=11" ++ line_end }
    ensures query { datagram_text (Query (record {
      kind = Request;
      flags = 2;
      key = record { ip = 10 ∷ 1 ∷ 2 ∷ 5 ∷ []; port = 138; id = 258 };
      destination = record { bytes = codes "FRED            "; scope = [] };
    })) 44 ≡ codes "find flags=02 key=10.1.2.5:138/0102 destination=FRED<20> used=44" ++ line_end }
{}

/// Lines of packets of port 139, of the front of one, and of a refusal.
pub fn lines_of_sessions()
    ensures message { session_text (Whole (sessions.Message (codes "abc")) 7)
        ≡ codes "message length=3 data=616263 used=7" ++ line_end }
    ensures request { session_text (Whole (sessions.Request
        (record { bytes = codes "FRED            "; scope = [] })
        (record { bytes = codes "JOE             "; scope = codes "NETBIOS" ∷ [] })) 80)
        ≡ codes "request called=FRED<20> calling=JOE<20>.NETBIOS used=80" ++ line_end }
    ensures positive { session_text (Whole sessions.Positive 4)
        ≡ codes "positive used=4" ++ line_end }
    ensures negative { session_text (Whole (sessions.Negative 143) 5)
        ≡ codes "negative code=8f used=5" ++ line_end }
    ensures retarget { session_text (Whole (sessions.Retarget (10 ∷ 1 ∷ 2 ∷ 5 ∷ []) 139) 10)
        ≡ codes "retarget address=10.1.2.5 port=139 used=10" ++ line_end }
    ensures keepalive { session_text (Whole sessions.Keepalive 4)
        ≡ codes "keepalive used=4" ++ line_end }
    ensures front { session_text (More 3) ≡ codes "more 3" ++ line_end }
    ensures refusal { session_text (Refused (TrailingBytes 72))
        ≡ codes "refused trailing bytes 72" ++ line_end }
{}
