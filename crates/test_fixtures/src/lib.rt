//! Journals and bundles that tests read: their texts, as the ledger's own rules spell them.
#![tactic(auto)]

/// One block with one revision.
pub const ONE_BLOCK: &str =
    "{blockAddress:{strandId:\"0000000000000000000000\",sequenceNo:0},transactionId:\"0000000000000000018OWG\",\
    blockTimestamp:2020-01-01T00:00:00.000Z,blockHash:{{6Vnmaj9qKooQw7UrihCVG82LhCdQr2Ap3K8ccJsFhQ8=}},\
    entriesHash:{{usUX/0rEHiVqoxtClAaORKPX0uvh2UKCIPU+L5cFqaA=}},\
    previousBlockHash:{{53lJLR4mqJhMC9teUhflWaT1io0nJ6QhUp8MSj38vzA=}},\
    entriesHashList:[{{e6BjJDsAESQbZnkkEy0dpcpvPq0Ji+a66Ku95+MY7xw=}},\
    {{xgJ+hPv/kWDMV1q/aV8pt6vx9+1GPWUxRtaBXSLitYc=}},{{U25AIDAIdKdPhpnLSqVMNT1uOKsE4rSPxrKue5OzwuE=}}],\
    transactionInfo:{place:{session:1,transaction:1},statements:[{statement:\"CREATE TABLE t\",parameters:[],\
    answer:[{tableId:\"0000000000000000018OWH\"}]},{statement:\"INSERT INTO t {'a': 5}\",parameters:[],\
    answer:[{documentId:\"0000000000000000018OWI\"}]}],schema:[{create:\"t\",\
    tableId:\"0000000000000000018OWH\"}],documents:[{documentId:\"0000000000000000018OWI\",\
    tableId:\"0000000000000000018OWH\"}]},revisions:[{blockAddress:{strandId:\"0000000000000000000000\",\
    sequenceNo:0},hash:{{xgJ+hPv/kWDMV1q/aV8pt6vx9+1GPWUxRtaBXSLitYc=}},data:{a:5},\
    metadata:{id:\"0000000000000000018OWI\",version:0,txTime:2020-01-01T00:00:00.000Z,\
    txId:\"0000000000000000018OWG\"}}]}\n";

/// The digest of that block, the revision, and its proof, whose path has two hashes.
pub const ONE_BUNDLE: &str = "{digest:{{6Vnmaj9qKooQw7UrihCVG82LhCdQr2Ap3K8ccJsFhQ8=}},\
    digestTipAddress:{strandId:\"0000000000000000000000\",sequenceNo:0}}\n\
    {blockAddress:{strandId:\"0000000000000000000000\",sequenceNo:0},\
    hash:{{xgJ+hPv/kWDMV1q/aV8pt6vx9+1GPWUxRtaBXSLitYc=}},data:{a:5},metadata:{id:\"0000000000000000018OWI\",\
    version:0,txTime:2020-01-01T00:00:00.000Z,txId:\"0000000000000000018OWG\"}}\n\
    {header:{blockAddress:{strandId:\"0000000000000000000000\",sequenceNo:0},\
    transactionId:\"0000000000000000018OWG\",blockTimestamp:2020-01-01T00:00:00.000Z,revisionCount:1},index:0,\
    path:[{{e6BjJDsAESQbZnkkEy0dpcpvPq0Ji+a66Ku95+MY7xw=}},{{53lJLR4mqJhMC9teUhflWaT1io0nJ6QhUp8MSj38vzA=}}]}\n";

/// One block of a transaction that created the table `t`, inserted `{a:5}` and selected it, with what it said and was
/// answered. ../block_form/vectors/make.py prints it.
pub const THREE_STATEMENTS: &str =
    "{blockAddress:{strandId:\"0000000000000000000000\",sequenceNo:0},\
    transactionId:\"0000000000000000018OWG\",blockTimestamp:2020-01-01T00:00:00.000Z,\
    blockHash:{{gCpMOs34h3TvAh7iAh4EKWV5KIxl70elgNz2Z+MXjSo=}},\
    entriesHash:{{BETLilX7F8NQwSlrOv764R5B8OyI0fRfFgk0/wFv/u4=}},\
    previousBlockHash:{{53lJLR4mqJhMC9teUhflWaT1io0nJ6QhUp8MSj38vzA=}},\
    entriesHashList:[{{b55irMV6NnpryuZXsbDVJEJ84zjusPGbA8Jfm5B8DiI=}},\
    {{xgJ+hPv/kWDMV1q/aV8pt6vx9+1GPWUxRtaBXSLitYc=}},\
    {{U25AIDAIdKdPhpnLSqVMNT1uOKsE4rSPxrKue5OzwuE=}}],\
    transactionInfo:{place:{session:1,transaction:1},\
    statements:[{statement:\"CREATE TABLE t\",parameters:[],\
    answer:[{tableId:\"0000000000000000018OWH\"}]},{statement:\"INSERT INTO t ?\",\
    parameters:[{a:5}],answer:[{documentId:\"0000000000000000018OWI\"}]},\
    {statement:\"SELECT * FROM t\",parameters:[],answer:[{a:5}]}],\
    schema:[{create:\"t\",tableId:\"0000000000000000018OWH\"}],\
    documents:[{documentId:\"0000000000000000018OWI\",tableId:\"0000000000000000018OWH\"}]},\
    revisions:[{blockAddress:{strandId:\"0000000000000000000000\",sequenceNo:0},\
    hash:{{xgJ+hPv/kWDMV1q/aV8pt6vx9+1GPWUxRtaBXSLitYc=}},data:{a:5},\
    metadata:{id:\"0000000000000000018OWI\",version:0,txTime:2020-01-01T00:00:00.000Z,\
    txId:\"0000000000000000018OWG\"}}]}\n";

/// Three blocks, the last of which has one revision.
pub const THREE_BLOCKS: &str =
    "{blockAddress:{strandId:\"0000000000000000000000\",sequenceNo:0},transactionId:\"0000000000000000018OWG\",\
    blockTimestamp:2020-01-01T00:00:00.000Z,blockHash:{{HhCVY2QMk3o0cm9cmtuFke0oowfUtenOEVQfDoRK7vA=}},\
    entriesHash:{{9zCvNHnfy3Aw6eZaJqJMbPzwxeETZH2QNjlTe8F8Ey4=}},\
    previousBlockHash:{{53lJLR4mqJhMC9teUhflWaT1io0nJ6QhUp8MSj38vzA=}},\
    entriesHashList:[{{/yWX2VckhInvCSdPflDTbG01W/IfpBmpf8uMbZoagbs=}},{{}},\
    {{3gXaQhmon4rxq3lTmPCYTDKNWsJdBVWQLTRz6HdxkQc=}}],transactionInfo:{place:{session:1,transaction:1},\
    statements:[{statement:\"CREATE TABLE t\",parameters:[],answer:[{tableId:\"0000000000000000018OWH\"}]}],\
    schema:[{create:\"t\",tableId:\"0000000000000000018OWH\"}],documents:[]},revisions:[]}\n\
    {blockAddress:{strandId:\"0000000000000000000000\",sequenceNo:1},transactionId:\"000000000000000002Gn2W\",\
    blockTimestamp:2020-01-01T00:00:00.000Z,blockHash:{{NV0YK/nE3VjmBFMzzn8z5/jsFTQqDF9ES7CxCQhykJs=}},\
    entriesHash:{{NKLtL0SJ3IeJLi7H0NHHyUXOhpbkbOMVITpWhN40KMA=}},\
    previousBlockHash:{{HhCVY2QMk3o0cm9cmtuFke0oowfUtenOEVQfDoRK7vA=}},\
    entriesHashList:[{{u7lXJ2pLW6FwShV+YzxV2xT83PrTekelVTScM092P5o=}},{{}},\
    {{/My1W5OK0FXayb2TxN7zYHyi2kmDJcKEis0oPOcEnHE=}}],transactionInfo:{place:{session:1,transaction:2},\
    statements:[],schema:[],documents:[]},revisions:[]}\n\
    {blockAddress:{strandId:\"0000000000000000000000\",sequenceNo:2},transactionId:\"000000000000000003PBYm\",\
    blockTimestamp:2020-01-01T00:00:00.000Z,blockHash:{{fOBbdB7nMe7/yarCnEAEY77RaHtakozFr2ypgH7Oer4=}},\
    entriesHash:{{2wm9esthVgJmhLSxqZca8Z1YFy0I5bJCqR+KUWJQ/Yw=}},\
    previousBlockHash:{{NV0YK/nE3VjmBFMzzn8z5/jsFTQqDF9ES7CxCQhykJs=}},\
    entriesHashList:[{{n6ljpm0O0AeA0DPdt7/uCPQliiw5Jq/I9bQDxN9CnK8=}},\
    {{ZT/0tvWCxuX35vsHoIy+iQBH8qHaPK8yT3R4/PbSTGU=}},{{RjswSJ4AfrFMfdK8/OGJvzF9iFjd7zruVxLnl5S3ALM=}}],\
    transactionInfo:{place:{session:1,transaction:3},statements:[{statement:\"INSERT INTO t {'a': 5}\",\
    parameters:[],answer:[{documentId:\"000000000000000003PBYn\"}]}],schema:[],\
    documents:[{documentId:\"000000000000000003PBYn\",tableId:\"0000000000000000018OWH\"}]},\
    revisions:[{blockAddress:{strandId:\"0000000000000000000000\",sequenceNo:2},\
    hash:{{ZT/0tvWCxuX35vsHoIy+iQBH8qHaPK8yT3R4/PbSTGU=}},data:{a:5},metadata:{id:\"000000000000000003PBYn\",\
    version:0,txTime:2020-01-01T00:00:00.000Z,txId:\"000000000000000003PBYm\"}}]}\n";

/// The digest of the three, that revision, and its proof, whose third hash is the pad's.
pub const THREE_BUNDLE: &str = "{digest:{{SKbDSguTnjfZ0tX3VC/l+IO7b1Owo8rloT46Qk8LR5A=}},\
    digestTipAddress:{strandId:\"0000000000000000000000\",sequenceNo:2}}\n\
    {blockAddress:{strandId:\"0000000000000000000000\",sequenceNo:2},\
    hash:{{ZT/0tvWCxuX35vsHoIy+iQBH8qHaPK8yT3R4/PbSTGU=}},data:{a:5},metadata:{id:\"000000000000000003PBYn\",\
    version:0,txTime:2020-01-01T00:00:00.000Z,txId:\"000000000000000003PBYm\"}}\n\
    {header:{blockAddress:{strandId:\"0000000000000000000000\",sequenceNo:2},\
    transactionId:\"000000000000000003PBYm\",blockTimestamp:2020-01-01T00:00:00.000Z,revisionCount:1},index:0,\
    path:[{{n6ljpm0O0AeA0DPdt7/uCPQliiw5Jq/I9bQDxN9CnK8=}},{{NV0YK/nE3VjmBFMzzn8z5/jsFTQqDF9ES7CxCQhykJs=}},\
    {{3RqdjwVIEPSnn1H8Ra+TmIc9BXgaw5vNLbaPvNMwCaM=}},{{ihTqWIHAmdtnTKPA1KxKC3rNn3kEG1maZmuLZdphnH4=}}]}\n";
