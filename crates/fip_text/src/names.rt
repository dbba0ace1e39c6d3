// The names that fiptool of Trusted Firmware-A 2.8 prints for the identifiers that it knows.
ghost use Rattle.std.specs.Prelude.{◌≡◌, ◌+◌, ◌≤◌, ◌∷◌, [], length, map, MatchOption, None, Some};
ghost use Rattle.fip_text.specs.Names.{name_text};
ghost use Rattle.fip_text.specs.Rows.{named};
ghost use Rattle.writing.specs.Pieces.{Stands};

use crate::pieces;

// Identifiers and their names.
pub(crate) const KNOWN: [(&[u8], &[u8]); 34] = [
    (
        b"65922703-2f74-e644-8dff-579ac1ff0610",
        b"SCP Firmware Updater Configuration FWU SCP_BL2U",
    ),
    (
        b"60b3eb37-c1e5-ea41-9df3-19eda11f6801",
        b"AP Firmware Updater Configuration BL2U",
    ),
    (
        b"4f511d11-2be5-4e49-b4c5-83c2f715840a",
        b"Firmware Updater NS_BL2U",
    ),
    (
        b"71408ab2-18d6-874c-8b2e-c6dccd50f096",
        b"Non-Trusted Firmware Updater certificate",
    ),
    (
        b"5ff9ec0b-4d22-3e4d-a544-c39d81c73f0a",
        b"Trusted Boot Firmware BL2",
    ),
    (
        b"9766fd3d-89be-e849-ae5d-78a140608213",
        b"SCP Firmware SCP_BL2",
    ),
    (
        b"47d4086d-4cfe-9846-9b95-2950cbbd5a00",
        b"EL3 Runtime Firmware BL31",
    ),
    (
        b"05d0e189-53dc-1347-8d2b-500a4b7a3e38",
        b"Secure Payload BL32 (Trusted OS)",
    ),
    (
        b"0b70c29b-2a5a-7840-9f65-0a5682738288",
        b"Secure Payload BL32 Extra1 (Trusted OS Extra1)",
    ),
    (
        b"8ea87bb1-cfa2-3f4d-85fd-e7bba50220d9",
        b"Secure Payload BL32 Extra2 (Trusted OS Extra2)",
    ),
    (
        b"d6d0eea7-fcea-d54b-9782-9934f234b6e4",
        b"Non-Trusted Firmware BL33",
    ),
    (
        b"6c0762a6-12f2-4b56-92cb-ba8f633606d9",
        b"Realm Monitor Management Firmware",
    ),
    (b"5807e16a-8459-47be-8ed5-648e8dddab0e", b"FW_CONFIG"),
    (b"08b8f1d9-c9cf-9349-a962-6fbc6b7265cc", b"HW_CONFIG"),
    (b"6c0458ff-af6b-7d4f-82ed-aa27bc69bfd2", b"TB_FW_CONFIG"),
    (b"9979814b-0376-fb46-8c8e-8d267f7859e0", b"SOC_FW_CONFIG"),
    (b"26257c1a-dbc6-7f47-8d96-c4c4b0248021", b"TOS_FW_CONFIG"),
    (b"28da9815-93e8-7e44-ac66-1aaf801550f9", b"NT_FW_CONFIG"),
    (
        b"862d1d72-f860-e411-920b-8be762160f24",
        b"Root Of Trust key certificate",
    ),
    (
        b"827ee890-f860-e411-a1b4-777a21b4f94c",
        b"Trusted key certificate",
    ),
    (
        b"024221a1-f860-e411-8d9b-f33c0e15a014",
        b"SCP Firmware key certificate",
    ),
    (
        b"8ab8becc-f960-e411-9ad0-eb4822d8dcf8",
        b"SoC Firmware key certificate",
    ),
    (
        b"9477d603-fb60-e411-85dd-b7105b8cee04",
        b"Trusted OS Firmware key certificate",
    ),
    (
        b"8ad5832a-fb60-e411-8aaf-df30bbc49859",
        b"Non-Trusted Firmware key certificate",
    ),
    (
        b"d6e269ea-5d63-e411-8d8c-9fbabe9956a5",
        b"Trusted Boot Firmware BL2 certificate",
    ),
    (
        b"44be6f04-5e63-e411-b28b-73d8eaae9656",
        b"SCP Firmware content certificate",
    ),
    (
        b"e2b20c20-5e63-e411-9ce8-abccf92bb666",
        b"SoC Firmware content certificate",
    ),
    (
        b"a49f4411-5e63-e411-8728-3f05722af33d",
        b"Trusted OS Firmware content certificate",
    ),
    (
        b"8ec4c1f3-5d63-e411-a7a9-87ee40b23fa7",
        b"Non-Trusted Firmware content certificate",
    ),
    (
        b"776dfd44-8697-4c3b-91eb-c13e025a2a6f",
        b"SiP owned Secure Partition content certificate",
    ),
    (
        b"ddcbbf4a-cad6-11ea-87d0-0242ac130003",
        b"Platform owned Secure Partition content certificate",
    ),
    (
        b"36d83d85-761d-4daf-96f1-cd99d6569b00",
        b"CCA Content Certificate",
    ),
    (
        b"52222d31-820f-494d-8bbc-ea6825d3c35a",
        b"Core Secure World Key Certificate",
    ),
    (
        b"d43cd902-5b9f-412e-8ac6-92b6d18be60d",
        b"Platform Key Certificate",
    ),
];

// The name that an identifier has among these.
fn named<'a>(known: &[(&'a [u8], &'a [u8])], id: &[u8]) -> Option<&'a [u8]>
    ensures { MatchOption result (named (map (λ k. (k.0.now, k.1.now)) known.now) id.now ≡ None) (λ name. named (map (λ k. (k.0.now, k.1.now)) known.now) id.now ≡ Some name.now) }
{
    for (text, name) in known {
        if fip_identifiers::is_alike(text, id, fip_identifiers::TEXT) {
            return Some(name);
        }
    }
    None
}

// The name of an identifier that is known.
fn name_of(id: &[u8]) -> Option<&'static [u8]>
    ensures { MatchOption result (name_text id.now ≡ []) (λ name. (name_text id.now ≡ 32 ∷ name.now) × (length name.now ≤ 51)) }
{
    named(&KNOWN, id)
}

// A space and the name of an identifier that is known; nothing for another.
pub(crate) fn put_name(out: &mut [u8], at: usize, id: &[u8]) -> usize
    requires { at + 52 ≤ length out.old }
    ensures { Stands out.old at (name_text id.now) result out.new × (result ≤ at + 52) }
{
    match name_of(id) {
        Some(name) => {
            let a = pieces::put_text(out, at, b" ");
            pieces::put_text(out, a, name)
        }
        None => at,
    }
}
