//! The lines of two blocks.

/// The first transaction creates the tables `t` and `w` and inserts two documents into `t`. The second one makes an
/// index on the field `a` of `t`, drops `w`, changes the first document, deletes the second one, and inserts a third
/// one.
pub const TWO_BLOCKS: &str = "{blockAddress:{strandId:\"0000000000000000000000\",sequenceNo:0},\
    transactionId:\"0000000000000000018OWG\",blockTimestamp:2020-01-01T00:00:10.000Z,\
    blockHash:{{ZrizNaA2ll03qbs1mvpGm88J+jQn0qbPOnC6C10egK0=}},\
    entriesHash:{{/IqnwYlpvHu9iDTuoUJ+Z8e6TsafYCGvFqLhO3KGZnk=}},\
    previousBlockHash:{{53lJLR4mqJhMC9teUhflWaT1io0nJ6QhUp8MSj38vzA=}},\
    entriesHashList:[{{lDLV2y7j0UddC+B8iVvO2/xpvQG/BRD+DGfh3ldinXY=}},\
    {{JkBKynkc7WH6a5KtcfvaMDDi4kGMZxl1OG4hzrW137Y=}},{{BpsODl/9hQrP9NeEjGsM6NCp/Owd0uqpBKG2v4uFMno=}}],\
    transactionInfo:{place:{session:1,transaction:1},statements:[],schema:[{create:\"t\",\
    tableId:\"0000000000000000018OWH\"},{create:\"w\",tableId:\"0000000000000000018OWI\"}],\
    documents:[{documentId:\"0000000000000000018OWJ\",tableId:\"0000000000000000018OWH\"},\
    {documentId:\"0000000000000000018OWK\",tableId:\"0000000000000000018OWH\"}]},\
    revisions:[{blockAddress:{strandId:\"0000000000000000000000\",sequenceNo:0},\
    hash:{{FCrhtnGaKmNGYF6hJ6zN7wtYyf0UhX7bfXPIrKBOP3o=}},data:{a:1},\
    metadata:{id:\"0000000000000000018OWJ\",version:0,txTime:2020-01-01T00:00:10.000Z,\
    txId:\"0000000000000000018OWG\"}},{blockAddress:{strandId:\"0000000000000000000000\",sequenceNo:0},\
    hash:{{rcblfWMEFNYlLSP75SWdbcBADtp8QBJMK8u+EXaJVT0=}},data:{a:2},\
    metadata:{id:\"0000000000000000018OWK\",version:0,txTime:2020-01-01T00:00:10.000Z,\
    txId:\"0000000000000000018OWG\"}}]}\n\
    {blockAddress:{strandId:\"0000000000000000000000\",sequenceNo:1},\
    transactionId:\"000000000000000002Gn2W\",blockTimestamp:2020-01-01T00:00:20.000Z,\
    blockHash:{{xnd9LKJFMbTHV1Fw0iMTAQO1qH8xxKDJC7zimhNlXPI=}},\
    entriesHash:{{qBFAirE9QLX7HTVbKA6fXTn0b8D0a9p8KGXzylDRFB8=}},\
    previousBlockHash:{{ZrizNaA2ll03qbs1mvpGm88J+jQn0qbPOnC6C10egK0=}},\
    entriesHashList:[{{CGYSCF9W9R6yLQE0obW3J8r8DlCRRv9PM8+ZYQBJoJI=}},\
    {{6oPlrb19UY4lP+QT/0wWe5IFuLNmuTcZ6LiI+iKWRCA=}},{{i6eygjVLVPB/itzcpQu8YWZCfW6ugDgyLC0Nl97vwCA=}}],\
    transactionInfo:{place:{session:1,transaction:1},statements:[],schema:[{index:\"a\",\
    tableId:\"0000000000000000018OWH\"},{drop:\"w\",tableId:\"0000000000000000018OWI\"}],\
    documents:[{documentId:\"0000000000000000018OWJ\",tableId:\"0000000000000000018OWH\"},\
    {documentId:\"0000000000000000018OWK\",tableId:\"0000000000000000018OWH\"},\
    {documentId:\"000000000000000002Gn2X\",tableId:\"0000000000000000018OWH\"}]},\
    revisions:[{blockAddress:{strandId:\"0000000000000000000000\",sequenceNo:1},\
    hash:{{Zr6Rxosh2/GzzyFtHYfozslDJvf2zgDo8CXuSttBjKM=}},data:{a:3},\
    metadata:{id:\"0000000000000000018OWJ\",version:1,txTime:2020-01-01T00:00:20.000Z,\
    txId:\"000000000000000002Gn2W\"}},{blockAddress:{strandId:\"0000000000000000000000\",sequenceNo:1},\
    hash:{{lFqAXRuZOI+WYF1olLCa8HO0kFerAh1oPUMLfeWMYK0=}},metadata:{id:\"0000000000000000018OWK\",version:1,\
    txTime:2020-01-01T00:00:20.000Z,txId:\"000000000000000002Gn2W\"}},\
    {blockAddress:{strandId:\"0000000000000000000000\",sequenceNo:1},\
    hash:{{sX3sdaEj4YC6Pp8DJUn1b2wie0g9FE1VgcGxiSMiNSw=}},data:{a:4},\
    metadata:{id:\"000000000000000002Gn2X\",version:0,txTime:2020-01-01T00:00:20.000Z,\
    txId:\"000000000000000002Gn2W\"}}]}\n";
