//! How the picture looks. Each rule is for pictures of this program alone, so that one can stand in a page as it is.

/// A picture that is shown small has larger letters, and fewer of the numbers. The marks can be told apart without
/// their colours, and the page behind the picture shows nowhere; round a picture that is a file of its own it is dark or light as
/// the picture. On paper it is as on a light page.
pub const STYLE: &str = "<style>
.clru_mrc{max-width:100%;height:auto;color-scheme:light dark}
.clru_mrc text{font-family:sans-serif;font-size:150px;fill:#222}
.clru_mrc .page{fill:#fff}
.clru_mrc .grid{stroke:#ccc;stroke-width:8}
.clru_mrc .between{stroke:#e8e8e8;stroke-width:8}
.clru_mrc .axis{stroke:#222;stroke-width:12;fill:none}
.clru_mrc .lru{stroke:#0b5cad;stroke-width:28;fill:none}
.clru_mrc .bytes{stroke:#b3410e;stroke-width:28;stroke-dasharray:110 55;fill:none}
.clru_mrc .floor{stroke:#666;stroke-width:14;stroke-dasharray:150 45 20 45;fill:none}
.clru_mrc .below{stroke:#2a7a3b;stroke-width:14;fill:none}
.clru_mrc .mark{fill:#fff;stroke-dasharray:none}
.clru_mrc .least{fill:#b3410e}
@media(max-width:500px){
.clru_mrc text{font-size:220px}
.clru_mrc .wide{display:none}
}
@media screen and (prefers-color-scheme:dark){
.clru_mrc text{fill:#ddd}
.clru_mrc .page{fill:#161616}
.clru_mrc .grid{stroke:#484848}
.clru_mrc .between{stroke:#2a2a2a}
.clru_mrc .axis{stroke:#ddd}
.clru_mrc .lru{stroke:#6cb2ff}
.clru_mrc .bytes{stroke:#ff9a5c}
.clru_mrc .floor{stroke:#999}
.clru_mrc .below{stroke:#7fce8f}
.clru_mrc .mark{fill:#161616}
.clru_mrc .least{fill:#ff9a5c}
}
</style>
";

/// The sizes of the letters, and of those of a picture that is shown small.
pub(super) const LETTERS: u128 = 150;

pub(super) const LARGE_LETTERS: u128 = 220;
