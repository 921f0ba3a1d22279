//! Laws of the definitions that the contracts cite. Each is proved; a call does nothing.
ghost use Rattle.std.specs.Prelude.{◌≡◌, ◌++◌, ◌∷◌, [], List};
ghost use Rattle.nb_frames.specs.Services.{service_of};
ghost use Rattle.nb_frames.specs.declared.carried.Carried.TheVariants.{Udp};
ghost use Rattle.nb_frames.specs.declared.carried.Hosts.{Hosts};
ghost use Rattle.nb_pcap.specs.Frame.{FrameValue};
ghost use Rattle.nb_traffic.specs.Brings.{Brings, datagram_in};
ghost use Rattle.nb_traffic.specs.Brought.{BroughtValue, Datagram, OtherPorts};
ghost use Rattle.nb_traffic.specs.Examples.{sent_to};
ghost use Rattle.nb_traffic.specs.Follows.{Follows};
ghost use Rattle.nb_traffic.specs.declared.traffic.Traffic.{Traffic};

/// Where these frames came, and one more, what is kept says so: the fragments that are live and the
/// segments that came are those of the frames.
pub fn frames_follow_one_another()
    ensures { (frames : List FrameValue) (frame : FrameValue) (brought : BroughtValue)
        (old new : Traffic) → Follows old frames → Brings old frame brought new →
        Follows new (frames ++ frame ∷ []) }
{}

/// A datagram from port 1025 to port 137, of which two of three bytes are captured, is a packet of
/// the service of names; one to port 53 is of none.
pub fn ports_say_the_service()
    ensures names { (hosts : Hosts) →
        datagram_in (service_of (Udp (sent_to hosts 137))) (sent_to hosts 137)
        ≡ Datagram (record {
          hosts = hosts;
          ports = record { source = 1025; destination = 137 };
          service = 137;
          bytes = 1 ∷ 2 ∷ [];
          wire_length = 3;
        }) }
    ensures others { (hosts : Hosts) →
        datagram_in (service_of (Udp (sent_to hosts 53))) (sent_to hosts 53) ≡ OtherPorts }
{}
